// The sentences of notes.
ghost use Rattle.std.specs.Prelude.{◌≡◌, IfOk};
ghost use Rattle.smpl_notes.specs.Sentences as spec;

use crate::{Note, Slip};
use c_terms::NoMemory;
use std::alloc::Global;

/// Returns the fixed part of the sentence of a slip: all of it, or what follows the name.
fn fixed(slip: &Slip) -> &'static [u8]
    ensures { result.now ≡ spec.fixed slip.now }
{
    match slip {
        Slip::IndentedMinus => b"a - that isn't in the first column is an operator",
        Slip::LooplessFunction =>
            b"under forall this finds only functions without a loop; exists finds all",
        Slip::UntypedFunction =>
            b"a function needs its type, as in T f(...); this is a loop of a macro",
        Slip::PlainName(_) => b" is a plain name here; is it a metavariable?",
        Slip::WrittenTest => b"without --iso-file this finds only tests that are written so",
        Slip::MisspeltKind(..) => b" is taken for a type; is it ",
        Slip::UnreadKind(_) => b" is taken for a type; it is no kind of metavariable here",
    }
}

/// Returns the name with which the sentence of a slip begins, or nothing.
fn name_of(slip: &Slip) -> &[u8]
    ensures { result.now ≡ spec.name_of slip.now }
{
    match slip {
        Slip::PlainName(name) => name.as_bytes(),
        Slip::MisspeltKind(name, _) => name.as_bytes(),
        Slip::UnreadKind(name) => name.as_bytes(),
        _ => b"",
    }
}

/// Returns the word for the kind that a slip asks about, or nothing.
fn kind_of(slip: &Slip) -> &'static [u8]
    ensures { result.now ≡ spec.kind_of slip.now }
{
    match slip {
        Slip::MisspeltKind(_, kind) => kind.text(),
        _ => b"",
    }
}

/// Returns the sign with which a question about a kind ends, or nothing.
fn end_of(slip: &Slip) -> &'static [u8]
    ensures { result.now ≡ spec.end_of slip.now }
{
    match slip {
        Slip::MisspeltKind(..) => b"?",
        _ => b"",
    }
}

/// Returns the sentence of a note, without its place and without a newline. Fails only when out of memory.
pub fn sentence(alloc: Global, note: &Note) -> Result<Vec<u8>, NoMemory>
    ensures bytes { IfOk result (λ text. text.items ≡ spec.sentence note.now) }
{
    match note {
        Note::NoSign => Ok(Vec::from_slice(alloc, no_sign())?),
        Note::InRule(_, _, slip) => {
            let mut text = Vec::from_slice(alloc, name_of(slip))?;
            text.extend_from_slice(fixed(slip))?;
            text.extend_from_slice(kind_of(slip))?;
            text.extend_from_slice(end_of(slip))?;
            Ok(text)
        }
    }
}

fn no_sign() -> &'static [u8]
    ensures { result.now ≡ spec.no_sign }
{
    b"no line has -, + or * in its first column, so nothing is changed or reported"
}
