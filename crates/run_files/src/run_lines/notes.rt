// The lines of the notes on a patch.
ghost use Rattle.std.specs.Prelude.{◌≡◌, ◌++◌, cond, map, IfOk, OnOk};
ghost use Rattle.std.specs.List.{filter};
ghost use Rattle.smpl_notes.specs.Sentences.{sentence as said};
ghost use Rattle.smpl_notes.specs.Told.{is_told as told, is_told_always as told_always};
ghost use Rattle.run_words.specs.Shown.{shown_target};
ghost use Rattle.run_files.specs.RunLines.Notes as spec;

use crate::run_lines::further::put_further;
use c_terms::{NoMemory, Text};
use outer_io::escaped_name;
use run_words::Target;
use smpl_notes::{Note, is_told, is_told_always, sentence};
use sqlite_items::Items;
use std::alloc::Global;
use text_places::Place;
use wit_print::TextBuffer;

/// Returns what a note says, without its place.
fn noted(alloc: Global, note: &Note) -> Result<Vec<u8>, NoMemory>
    ensures { IfOk result (λ what. what.items ≡ spec.noted (said note.now)) }
{
    let mut what = TextBuffer::new(alloc);
    what.put(b"note: ")?;
    what.put(&sentence(alloc, note)?)?;
    Ok(what.finish())
}

fn put_unplaced(line: &mut TextBuffer, name: &str, rule: &[u8], what: &[u8]) -> Result<(), NoMemory>
    ensures { OnOk result (line.new ≡ line.old ++ spec.unplaced_line name.now rule.now what.now) }
{
    let shown = escaped_name(line.alloc(), name.as_bytes())?;
    line.put(b"  ")?;
    line.put(&shown)?;
    line.put(b": ")?;
    line.put(rule)?;
    line.put(what)?;
    line.put(b"\n")
}

/// Returns the number of a rule as a line about it says it.
fn rule_text(alloc: Global, rule: u32) -> Result<Vec<u8>, NoMemory>
    ensures { IfOk result (λ text. text.items ≡ spec.rule_text rule) }
{
    let mut text = TextBuffer::new(alloc);
    text.put_numbered(b"rule ", u64::from(rule))?;
    text.put(b": ")?;
    Ok(text.finish())
}

fn put_in_rule(
    line: &mut TextBuffer,
    name: &str,
    rule: u32,
    place: Option<Place>,
    what: &[u8],
) -> Result<(), NoMemory>
    ensures { OnOk result (line.new ≡ line.old ++ spec.rule_line name.now rule place what.now) }
{
    match place {
        Some(place) => put_further(line, name, place, what),
        None => {
            let rule = rule_text(line.alloc(), rule)?;
            put_unplaced(line, name, &rule, what)
        }
    }
}

/// Appends the line that says this of where a note is.
fn put_at(line: &mut TextBuffer, name: &str, note: &Note, what: &[u8]) -> Result<(), NoMemory>
    ensures { OnOk result (line.new ≡ line.old ++ spec.line_at name.now note.now what.now) }
{
    match note {
        Note::NoSign => put_unplaced(line, name, b"", what),
        Note::InRule(rule, place, _) => put_in_rule(line, name, *rule, *place, what),
    }
}

/// Returns the line `  NAME:LINE:COLUMN: note: SENTENCE` of a note on the patch of this name. A note that has no place says
/// `rule N` in its stead, and one on the whole patch neither.
///
/// Linear in the name and the sentence. Fails only when out of memory. The form of the line is that of the GNU standards.
pub fn note_line(alloc: Global, name: &str, note: &Note) -> Result<Vec<u8>, NoMemory>
    ensures bytes { IfOk result (λ line. line.items ≡ spec.note_line name.now note.now) }
{
    let what = noted(alloc, note)?;
    let mut line = TextBuffer::new(alloc);
    put_at(&mut line, name, note, &what)?;
    Ok(line.finish())
}

/// The lines of the notes on a patch.
#[derive(Drop)]
pub struct NoteLines {
    /// Those that a run tells if it finds nothing.
    pub all: Items<Text>,
    /// Those of them that a run tells if it finds something too.
    pub always: Items<Text>,
}

impl NoteLines {
    /// Returns no lines. Takes no memory.
    pub fn none(alloc: Global) -> NoteLines
        ensures { result ≡ spec.no_lines }
    {
        NoteLines {
            all: Items::new(alloc),
            always: Items::new(alloc),
        }
    }

    /// Returns those that a run tells, given whether it found something.
    pub fn told(&self, found: bool) -> &[Text]
        ensures { result.now ≡ cond found self.now.always self.now.all }
    {
        if found {
            self.always.as_slice()
        } else {
            self.all.as_slice()
        }
    }
}

fn line_text(alloc: Global, name: &str, note: &Note) -> Result<Text, NoMemory>
    ensures { IfOk result (λ line. line ≡ spec.note_line name.now note.now) }
{
    Text::from_bytes(alloc, &note_line(alloc, name, note)?)
}

fn told_lines(
    alloc: Global,
    name: &str,
    has_isos: bool,
    reports: bool,
    notes: &[Note],
) -> Result<Items<Text>, NoMemory>
    ensures { IfOk result (λ lines. lines ≡ map (spec.note_line name.now) (filter (told has_isos reports) notes.now)) }
{
    let mut lines = Items::new(alloc);
    for note in notes {
        if is_told(has_isos, reports, note) {
            lines.push(line_text(alloc, name, note)?)?;
        }
    }
    Ok(lines)
}

fn always_lines(alloc: Global, name: &str, notes: &[Note]) -> Result<Items<Text>, NoMemory>
    ensures { IfOk result (λ lines. lines ≡ map (spec.note_line name.now) (filter told_always notes.now)) }
{
    let mut lines = Items::new(alloc);
    for note in notes {
        if is_told_always(note) {
            lines.push(line_text(alloc, name, note)?)?;
        }
    }
    Ok(lines)
}

/// Returns the lines of the notes on the patch of this name: none if the patch is applied to a generated text, and none under
/// `--quiet`. `has_isos` says whether isomorphisms are named.
///
/// Linear in the lines, and in the name for each. Fails only when out of memory.
pub fn note_lines(
    alloc: Global,
    name: &str,
    has_isos: bool,
    target: &Target<'_>,
    notes: &[Note],
) -> Result<NoteLines, NoMemory>
    ensures lines { IfOk result (λ lines. lines ≡ spec.note_lines name.now has_isos (shown_target target.now) notes.now) }
{
    match target {
        Target::Text(..) => Ok(NoteLines::none(alloc)),
        Target::Files(mode, _) => {
            if mode.quiet {
                return Ok(NoteLines::none(alloc));
            }
            let all = told_lines(alloc, name, has_isos, mode.witnesses, notes)?;
            let always = always_lines(alloc, name, notes)?;
            Ok(NoteLines { all, always })
        }
    }
}
