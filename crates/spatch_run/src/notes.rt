// The notes on a patch: they are found after it is read, and told after the last file.
ghost use Rattle.std.specs.Prelude.{◌≡◌, ◌≤◌, false, is_some, map, Bool, List, ℕ, Option, IfOk, OnOk, IfErr};
ghost use Rattle.outer_io.specs.Files.{Files};
ghost use Rattle.run_acts.specs.Acts.{Report, observed};
ghost use Rattle.run_acts.specs.Breaks.{counts};
ghost use Rattle.run_acts.specs.Statuses.{status_of};
ghost use Rattle.smpl_notes.specs.declared.note.Note.{Note as Said};
ghost use Rattle.smpl_notes.specs.Notes.{AreNotes};
ghost use Rattle.smpl_file.specs.Patches.{IsPatchOf};
ghost use Rattle.run_words.specs.Shown.{shown_isos, shown_target};
ghost use Rattle.run_files.specs.RunLines.Notes as lines;
ghost use Rattle.run_files.specs.RunStages.Stages.{told};
ghost use Rattle.run_files.specs.Does.{Does, Stops};

use c_terms::{NoMemory, Text};
use outer_io::Sink;
use run_acts::{Stopped, report};
use run_files::{NoteLines, Tally, note_lines};
use run_words::{PatchOrder, Target};
use smpl_notes::notes;
use smpl_patch::Patch;
use std::alloc::Global;

/// A patch that was read, and the lines of the notes on it.
#[derive(Drop)]
pub struct Noted {
    pub patch: Patch,
    pub notes: NoteLines,
}

/// Whether notes may be told of this target: none are on a generated text, nor under `--quiet`.
fn may_tell(target: &Target<'_>) -> bool
    ensures none { result ≡ false → (name : List ℕ) (has_isos : Bool) (found : List Said) →
        lines.note_lines name has_isos (shown_target target.now) found ≡ lines.no_lines }
{
    match target {
        Target::Files(mode, _) => !mode.quiet,
        Target::Text(..) => false,
    }
}

/// Returns the lines of the notes on a patch that these bytes spell. If none may be told, nothing is looked at.
fn lines_on(
    alloc: Global,
    order: &PatchOrder<'_>,
    bytes: &[u8],
    patch: &Patch,
) -> Result<NoteLines, NoMemory>
    requires read { IsPatchOf bytes.now patch.now }
    ensures lines { IfOk result (λ made. (found : List Said) × (AreNotes bytes.now patch.now found
        × (made ≡ lines.note_lines order.now.patch.now (is_some (shown_isos order.now.isos)) (shown_target order.now.target) found))) }
{
    if !may_tell(&order.target) {
        return Ok(NoteLines::none(alloc));
    }
    let found = notes(alloc, bytes, patch)?;
    note_lines(
        alloc,
        order.patch,
        order.isos.is_some(),
        &order.target,
        found.as_slice(),
    )
}

/// Adds the lines of its notes to a patch that was read from these bytes.
pub fn with_notes(
    alloc: Global,
    order: &PatchOrder<'_>,
    bytes: &[u8],
    patch: Patch,
) -> Result<Noted, NoMemory>
    requires read { IsPatchOf bytes.now patch }
    ensures patch { IfOk result (λ noted. noted.patch ≡ patch) }
    ensures lines { IfOk result (λ noted. (found : List Said) × (AreNotes bytes.now patch found
        × (noted.notes ≡ lines.note_lines order.now.patch.now (is_some (shown_isos order.now.isos)) (shown_target order.now.target) found))) }
{
    let notes = lines_on(alloc, order, bytes, &patch)?;
    Ok(Noted { patch, notes })
}

/// Reports lines of the notes after the last file, if nothing was refused: all if nothing was found, or else those that are
/// always told.
pub fn tell<E: Sink>(err: &mut E, tally: Tally, notes: &NoteLines) -> Result<(), Stopped>
    ensures done { OnOk result ((files : Option Files) (stores : ℕ) (out : Option (List ℕ)) →
        Does (told (record { tally = tally; notes = notes.now }))
        (observed files stores out (E.written err.old)) (observed files stores out (E.written err.new))) }
    ensures later { E.faults err.old ≤ E.faults err.new }
    ensures stopped { IfErr result (λ stopped. (files : Option Files) (out : Option (List ℕ)) (stores s o s' o' : ℕ) →
        Stops (told (record { tally = tally; notes = notes.now }))
        (counts s o (E.faults err.old)) (counts s' o' (E.faults err.new))
        (observed files stores out (E.written err.old)) (observed files stores out (E.written err.new)) (status_of stopped)) }
{
    if tally.refused {
        return Ok(());
    }
    report_all(err, notes.told(tally.found))
}

/// Reports these lines.
fn report_all<E: Sink>(err: &mut E, lines: &[Text]) -> Result<(), Stopped>
    ensures done { OnOk result ((files : Option Files) (stores : ℕ) (out : Option (List ℕ)) →
        Does (map Report lines.now)
        (observed files stores out (E.written err.old)) (observed files stores out (E.written err.new))) }
    ensures later { E.faults err.old ≤ E.faults err.new }
    ensures stopped { IfErr result (λ stopped. (files : Option Files) (out : Option (List ℕ)) (stores s o s' o' : ℕ) →
        Stops (map Report lines.now)
        (counts s o (E.faults err.old)) (counts s' o' (E.faults err.new))
        (observed files stores out (E.written err.old)) (observed files stores out (E.written err.new)) (status_of stopped)) }
{
    for line in lines {
        report(err, line.as_bytes())?;
    }
    Ok(())
}
