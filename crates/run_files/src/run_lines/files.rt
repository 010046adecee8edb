// The lines about files.
ghost use Rattle.std.specs.Prelude.{◌≡◌, ◌++◌, IfOk, OnOk};
ghost use Rattle.run_files.specs.RunLines.Files as spec;

use crate::run_lines::further::put_further_at;
use crate::run_lines::patches::line_about;
use c_terms::NoMemory;
use cpp_lines::Why;
use rule_chain::{FileFault, SkipNote};
use std::alloc::Global;
use text_places::Place;
use wit_print::TextBuffer;

/// Appends why a file is refused. Appends nothing for `NoMemory`: no file is refused because memory ran out.
fn put_fault(line: &mut TextBuffer, fault: &FileFault) -> Result<(), NoMemory>
    ensures { OnOk result (line.new ≡ line.old ++ spec.fault_text fault.now) }
{
    match fault {
        FileFault::FileTooLong(rule) => {
            line.put_numbered(b"file too long after rule ", u64::from(*rule))
        }
        FileFault::Conflict(rule, token, _, _) => {
            line.put_numbered(b"conflict in rule ", u64::from(*rule))?;
            line.put_numbered(b" at token ", *token)
        }
        FileFault::Body(rule, token) => {
            line.put_numbered(b"rule ", u64::from(*rule))?;
            line.put_numbered(b" leaves a body without braces at token ", *token)
        }
        FileFault::TooManyWitnesses(rule) => {
            line.put_numbered(b"too many witnesses in rule ", u64::from(*rule))
        }
        FileFault::TooManyEnvironments(rule) => {
            line.put_numbered(b"too many environments after rule ", u64::from(*rule))
        }
        FileFault::NoMemory => Ok(()),
    }
}

/// Appends what is at the place of a refusal.
fn put_there(text: &mut TextBuffer, fault: &FileFault) -> Result<(), NoMemory>
    ensures { OnOk result (text.new ≡ text.old ++ spec.fault_there fault.now) }
{
    match fault {
        FileFault::Conflict(rule, _, _, _) => {
            text.put_numbered(b"conflict in rule ", u64::from(*rule))
        }
        _ => put_fault(text, fault),
    }
}

/// Returns what is at the place of a refusal.
fn there(alloc: Global, fault: &FileFault) -> Result<Vec<u8>, NoMemory>
    ensures { IfOk result (λ text. text.items ≡ spec.fault_there fault.now) }
{
    let mut text = TextBuffer::new(alloc);
    put_there(&mut text, fault)?;
    Ok(text.finish())
}

/// Returns the line `spatch: NAME: refused: FAULT` for a file of this name that is refused because of this fault. If the fault
/// has a place in the file, the further line `  NAME:LINE:COLUMN: FAULT` follows.
///
/// Linear in the name. Fails only when out of memory. The format is the project's own.
pub fn refused_line(
    alloc: Global,
    name: &str,
    place: Option<Place>,
    fault: &FileFault,
) -> Result<Vec<u8>, NoMemory>
    ensures bytes { IfOk result (λ line. line.items ≡ spec.refused_line name.now place fault.now) }
{
    let what = there(alloc, fault)?;
    let mut line = line_about(alloc, name)?;
    line.put(b"refused: ")?;
    put_fault(&mut line, fault)?;
    line.put(b"\n")?;
    put_further_at(&mut line, name, place, &what)?;
    Ok(line.finish())
}

/// Returns the line `spatch: NAME: refused: file too long` for a file of this name that is over its limit when it is loaded.
///
/// Linear in the name. Fails only when out of memory. The format is the project's own.
pub fn too_long_line(alloc: Global, name: &str) -> Result<Vec<u8>, NoMemory>
    ensures bytes { IfOk result (λ line. line.items ≡ spec.too_long_line name.now) }
{
    let mut line = line_about(alloc, name)?;
    line.put(b"refused: file too long")?;
    line.put(b"\n")?;
    Ok(line.finish())
}

/// Returns the line `spatch: NAME: refused: no regular file` for a pipe, a device or a socket of this name.
///
/// Linear in the name. Fails only when out of memory. The format is the project's own.
pub fn special_line(alloc: Global, name: &str) -> Result<Vec<u8>, NoMemory>
    ensures bytes { IfOk result (λ line. line.items ≡ spec.special_line name.now) }
{
    let mut line = line_about(alloc, name)?;
    line.put(b"refused: no regular file")?;
    line.put(b"\n")?;
    Ok(line.finish())
}

fn why_text(why: Why) -> &'static [u8]
    ensures { result.now ≡ spec.why_text why }
{
    match why {
        Why::NoTree => b"no tree",
        Why::TooDeep => b"too deep",
        Why::TooManyNodes => b"too many nodes",
    }
}

/// Returns the line `spatch: NAME: reading R: item N not read: WHY` for an item that a reading of the file of this name
/// skipped. If the item has a place in the file, the further line `  NAME:LINE:COLUMN: WHY` follows.
///
/// Linear in the name. Fails only when out of memory. The format is the project's own.
pub fn skipped_line(
    alloc: Global,
    name: &str,
    place: Option<Place>,
    note: &SkipNote,
) -> Result<Vec<u8>, NoMemory>
    ensures bytes { IfOk result (λ line. line.items ≡ spec.skipped_line name.now place note.now) }
{
    let mut line = line_about(alloc, name)?;
    line.put_numbered(b"reading ", u64::from(note.reading))?;
    line.put_numbered(b": item ", u64::from(note.item))?;
    line.put(b" not read: ")?;
    line.put(why_text(note.why))?;
    line.put(b"\n")?;
    put_further_at(&mut line, name, place, why_text(note.why))?;
    Ok(line.finish())
}
