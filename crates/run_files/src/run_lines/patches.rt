// The lines about patches and isomorphisms.
ghost use Rattle.std.specs.Prelude.{◌≡◌, ◌++◌, IfOk, OnOk};
ghost use Rattle.run_files.specs.RunLines.Patches as spec;

use crate::run_lines::further::put_further_at;
use c_terms::NoMemory;
use iso_file::IsoFault;
use outer_io::escaped_name;
use smpl_patch::{PatchFault, fault_number, fault_place};
use std::alloc::Global;
use text_places::Place;
use wit_print::TextBuffer;

/// Returns the start of a line about the given name: everything before the line's text.
pub fn line_about(alloc: Global, name: &str) -> Result<TextBuffer, NoMemory>
    ensures { IfOk result (λ line. line ≡ spec.begun name.now) }
{
    let mut line = TextBuffer::new(alloc);
    line.put(b"spatch: ")?;
    line.put(&escaped_name(alloc, name.as_bytes())?)?;
    line.put(b": ")?;
    Ok(line)
}

/// Appends the place of a patch's fault.
fn put_place(line: &mut TextBuffer, fault: &PatchFault) -> Result<(), NoMemory>
    ensures { OnOk result (line.new ≡ line.old ++ spec.fault_place_text fault.now) }
{
    match fault {
        PatchFault::PatchTooLong => Ok(()),
        PatchFault::StarWithEdit(rule) => line.put_numbered(b" in rule ", u64::from(*rule)),
        PatchFault::TooLarge(rule) => line.put_numbered(b" in rule ", u64::from(*rule)),
        PatchFault::MayStayUnbound(x) => put_variable(line, x.name.as_bytes()),
        PatchFault::UnboundInPlus(x) => put_variable(line, x.name.as_bytes()),
        _ => line.put_numbered(b" at ", u64::from(fault_place(fault))),
    }
}

fn put_variable(line: &mut TextBuffer, name: &[u8]) -> Result<(), NoMemory>
    ensures { OnOk result (line.new ≡ line.old ++ spec.variable_text name.now) }
{
    line.put(b" of ")?;
    line.put(name)
}

/// Returns what is wrong with a patch that has this fault, if the sentence names no variable.
fn plain_sentence(fault: &PatchFault) -> &'static [u8]
    ensures { result.now ≡ spec.plain_sentence fault.now }
{
    match fault {
        PatchFault::PatchTooLong => b"more than 1048576 bytes",
        PatchFault::BadToken(_) => b"no token of a patch",
        PatchFault::BadHeader(_) => b"the header can't go on here",
        PatchFault::BadMetavariable(_) => b"no declaration of a metavariable",
        PatchFault::TwiceNamed(_) => b"a name that is taken; choose another",
        PatchFault::UnknownRule(_) => {
            b"no earlier rule, virtual name or metavariable of that rule; declare it first"
        }
        PatchFault::KindDiffers(_) => {
            b"another kind than the earlier rule gives it; write that kind"
        }
        PatchFault::BadPattern(_) => b"neither an expression, nor statements, nor one function",
        PatchFault::StarWithEdit(_) => b"lines with * beside lines with - or +",
        PatchFault::PlusWithoutAnchor(_) => {
            b"added lines that stand beside no token of the rule; put them beside a statement"
        }
        PatchFault::DotsAtEdge(_) => b"dots at the edge of code; leave them out",
        PatchFault::MinusDots(_) => {
            b"dots on a line with -; put the - on what stands beside them"
        }
        PatchFault::MayStayUnbound(_) => {
            b" may stay without a value; let each branch have it, or write the branches as statements, one a line"
        }
        PatchFault::UnboundInPlus(_) => b" gets no value; let the code find it, or inherit it",
        PatchFault::ScriptRule(_) => b"scripts aren't taken; --witnesses prints what is found",
        PatchFault::TooDeep(_) => b"more than 200 brackets open",
        PatchFault::TooLarge(_) => {
            b"too large: too many dots or branches in a row; split the rule, or write exists"
        }
        PatchFault::NoMemory => b"",
    }
}

/// Returns the name of the variable of the fault, or nothing.
fn variable_in(fault: &PatchFault) -> &[u8]
    ensures { result.now ≡ spec.variable_in fault.now }
{
    match fault {
        PatchFault::MayStayUnbound(x) => x.name.as_bytes(),
        PatchFault::UnboundInPlus(x) => x.name.as_bytes(),
        _ => b"",
    }
}

/// Returns what is wrong with a patch that has this fault.
fn sentence(alloc: Global, fault: &PatchFault) -> Result<Vec<u8>, NoMemory>
    ensures { IfOk result (λ text. text.items ≡ spec.fault_sentence fault.now) }
{
    let mut text = TextBuffer::new(alloc);
    text.put(variable_in(fault))?;
    text.put(plain_sentence(fault))?;
    Ok(text.finish())
}

/// Returns the line `spatch: NAME: patch fault N PLACE` for a patch of this name with this fault. The place is ` at` and a
/// byte, ` in rule` and a number, ` of` and a variable, or nothing. If the fault has a place in the patch, the further line
/// `  NAME:LINE:COLUMN: SENTENCE` follows, which says what is wrong there.
///
/// Linear in the name and the variable. Fails only when out of memory. The format is the project's own, and that of the further
/// line is the one of the GNU standards.
pub fn patch_fault_line(
    alloc: Global,
    name: &str,
    place: Option<Place>,
    fault: &PatchFault,
) -> Result<Vec<u8>, NoMemory>
    ensures bytes { IfOk result (λ line. line.items ≡ spec.patch_fault_line name.now place fault.now) }
{
    let what = sentence(alloc, fault)?;
    let mut line = line_about(alloc, name)?;
    line.put_numbered(b"patch fault ", u64::from(fault_number(fault)))?;
    put_place(&mut line, fault)?;
    line.put(b"\n")?;
    put_further_at(&mut line, name, place, &what)?;
    Ok(line.finish())
}

/// Appends the number of a fault in isomorphisms, and its place. Appends nothing for `NoMemory`: isomorphisms are never refused
/// because memory ran out.
fn put_iso_fault(line: &mut TextBuffer, fault: IsoFault) -> Result<(), NoMemory>
    ensures { OnOk result (line.new ≡ line.old ++ spec.iso_fault_text fault) }
{
    match fault {
        IsoFault::BadIso(at) => line.put_numbered(b"1 at ", u64::from(at)),
        IsoFault::NotExpression(at) => line.put_numbered(b"2 at ", u64::from(at)),
        IsoFault::VariableLost(at) => line.put_numbered(b"3 at ", u64::from(at)),
        IsoFault::TooLong => line.put(b"4"),
        IsoFault::NoMemory => Ok(()),
    }
}

/// Returns what is wrong with isomorphisms that have this fault.
fn iso_sentence(fault: IsoFault) -> &'static [u8]
    ensures { result.now ≡ spec.iso_sentence fault }
{
    match fault {
        IsoFault::BadIso(_) => b"no isomorphism",
        IsoFault::NotExpression(_) => b"another kind than Expression; leave the block out",
        IsoFault::VariableLost(_) => {
            b"a variable that the other side lacks; turn the arrow around"
        }
        IsoFault::TooLong => b"more than 1048576 bytes",
        IsoFault::NoMemory => b"",
    }
}

/// Returns the offset of the byte at which a fault in isomorphisms is, if it has one.
pub fn iso_byte(fault: IsoFault) -> Option<u32>
    ensures { result ≡ spec.iso_byte fault }
{
    match fault {
        IsoFault::BadIso(at) => Some(at),
        IsoFault::NotExpression(at) => Some(at),
        IsoFault::VariableLost(at) => Some(at),
        IsoFault::TooLong => None,
        IsoFault::NoMemory => None,
    }
}

/// Returns the line `spatch: NAME: isomorphism fault N at BYTE` for isomorphisms of this name with this fault, followed by the
/// further line about its place. The fault of a file that is too long has no place.
///
/// Linear in the name. Fails only when out of memory. The format is the project's own.
pub fn iso_fault_line(
    alloc: Global,
    name: &str,
    place: Option<Place>,
    fault: IsoFault,
) -> Result<Vec<u8>, NoMemory>
    ensures bytes { IfOk result (λ line. line.items ≡ spec.iso_fault_line name.now place fault) }
{
    let mut line = line_about(alloc, name)?;
    line.put(b"isomorphism fault ")?;
    put_iso_fault(&mut line, fault)?;
    line.put(b"\n")?;
    put_further_at(&mut line, name, place, iso_sentence(fault))?;
    Ok(line.finish())
}

/// Returns the line `spatch: NAME: too many forms in rule N` for isomorphisms of this name under which rule `N` has too many
/// forms.
///
/// Linear in the name. Fails only when out of memory. The format is the project's own.
pub fn forms_line(alloc: Global, name: &str, rule: u32) -> Result<Vec<u8>, NoMemory>
    ensures bytes { IfOk result (λ line. line.items ≡ spec.forms_line name.now rule) }
{
    let mut line = line_about(alloc, name)?;
    line.put_numbered(b"too many forms in rule ", u64::from(rule))?;
    line.put(b"\n")?;
    Ok(line.finish())
}
