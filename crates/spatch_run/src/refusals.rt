// The ends of a run that stops early: a line is reported, and a status is returned.
ghost use Rattle.std.specs.Prelude.{List, ℕ, Option};
ghost use Rattle.outer_io.specs.Files.{Files};
ghost use Rattle.run_acts.specs.Acts.{observed};
ghost use Rattle.run_acts.specs.Breaks.{counts};
ghost use Rattle.run_acts.specs.Lines.{cannot_read};
ghost use Rattle.run_acts.specs.Statuses.{number_of};
ghost use Rattle.run_files.specs.RunLines.Patches as lines;
ghost use Rattle.run_files.specs.RunLines.Words.{refused_words};
ghost use Rattle.run_files.specs.RunStages.Stages.{refusing};
ghost use Rattle.run_files.specs.RunStages.Ends.{Ends};
ghost use Rattle.spatch_run.specs.Answer.{answer};

use iso_file::IsoFault;
use outer_io::Sink;
use run_acts::{Status, Stopped, cannot_read, report};
use run_files::{forms_line, iso_fault_line, patch_fault_line, refused_words};
use run_words::WordFault;
use smpl_patch::PatchFault;
use std::alloc::Global;
use text_places::Place;

/// Reports a line and returns a status.
fn end_by<E: Sink>(err: &mut E, line: &[u8], status: Status) -> Result<Status, Stopped>
    ensures ends { (files : Option Files) (out : Option (List ℕ)) (stores s o : ℕ) →
        Ends (refusing line.now (number_of status))
        (counts s o (E.faults err.old)) (counts s o (E.faults err.new))
        (observed files stores out (E.written err.old)) (observed files stores out (E.written err.new))
        (answer result) }
{
    report(err, line)?;
    Ok(status)
}

/// Reports the usage line and why the words are no command.
pub fn refuse_words<E: Sink>(
    alloc: Global,
    err: &mut E,
    fault: Option<WordFault>,
) -> Result<Status, Stopped>
    ensures ends { (files : Option Files) (out : Option (List ℕ)) (stores s o : ℕ) →
        Ends (refusing (refused_words fault) 1)
        (counts s o (E.faults err.old)) (counts s o (E.faults err.new))
        (observed files stores out (E.written err.old)) (observed files stores out (E.written err.new))
        (answer result) }
{
    let line = refused_words(alloc, fault)?;
    end_by(err, &line, Status::WordsRefused)
}

/// Reports the line about a name under which nothing is stored.
pub fn refuse_absent<E: Sink>(alloc: Global, err: &mut E, name: &str) -> Result<Status, Stopped>
    ensures ends { (files : Option Files) (out : Option (List ℕ)) (stores s o : ℕ) →
        Ends (refusing (cannot_read name.now) 5)
        (counts s o (E.faults err.old)) (counts s o (E.faults err.new))
        (observed files stores out (E.written err.old)) (observed files stores out (E.written err.new))
        (answer result) }
{
    let line = cannot_read(alloc, name)?;
    end_by(err, &line, Status::CannotRead)
}

/// Reports the line about the patch of this name with this fault, and what is wrong at its place.
pub fn refuse_patch<E: Sink>(
    alloc: Global,
    err: &mut E,
    name: &str,
    place: Option<Place>,
    fault: &PatchFault,
) -> Result<Status, Stopped>
    ensures ends { (files : Option Files) (out : Option (List ℕ)) (stores s o : ℕ) →
        Ends (refusing (lines.patch_fault_line name.now place fault.now) 2)
        (counts s o (E.faults err.old)) (counts s o (E.faults err.new))
        (observed files stores out (E.written err.old)) (observed files stores out (E.written err.new))
        (answer result) }
{
    let line = patch_fault_line(alloc, name, place, fault)?;
    end_by(err, &line, Status::PatchRefused)
}

/// Reports the line about the isomorphisms of this name with this fault, and what is wrong at its place.
pub fn refuse_isos<E: Sink>(
    alloc: Global,
    err: &mut E,
    name: &str,
    place: Option<Place>,
    fault: IsoFault,
) -> Result<Status, Stopped>
    ensures ends { (files : Option Files) (out : Option (List ℕ)) (stores s o : ℕ) →
        Ends (refusing (lines.iso_fault_line name.now place fault) 3)
        (counts s o (E.faults err.old)) (counts s o (E.faults err.new))
        (observed files stores out (E.written err.old)) (observed files stores out (E.written err.new))
        (answer result) }
{
    let line = iso_fault_line(alloc, name, place, fault)?;
    end_by(err, &line, Status::IsosRefused)
}

/// Reports the line about the isomorphisms of this name under which a rule has too many forms.
pub fn refuse_forms<E: Sink>(
    alloc: Global,
    err: &mut E,
    name: &str,
    rule: u32,
) -> Result<Status, Stopped>
    ensures ends { (files : Option Files) (out : Option (List ℕ)) (stores s o : ℕ) →
        Ends (refusing (lines.forms_line name.now rule) 3)
        (counts s o (E.faults err.old)) (counts s o (E.faults err.new))
        (observed files stores out (E.written err.old)) (observed files stores out (E.written err.new))
        (answer result) }
{
    let line = forms_line(alloc, name, rule)?;
    end_by(err, &line, Status::IsosRefused)
}
