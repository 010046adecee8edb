// What a note says.
ghost use Rattle.std.specs.Prelude.{◌≡◌, ◌&&◌, not, IfOk};
ghost use Rattle.smpl_notes.specs.Told as told;

use crate::kind_word::KindWord;
use c_terms::{NoMemory, Text};
use std::alloc::Global;
use text_places::Place;

/// What is probably a mistake in a rule.
#[derive(Drop)]
pub enum Slip {
    /// ` - f(x);`: a `-` before a call, at the first token of a line without a sign. It is an operator and no sign.
    IndentedMinus,
    /// `T f(...) { ... }` under `forall`, with dots or a nest directly in the block. A path may stay in a loop forever, so a
    /// function that has one isn't found.
    LooplessFunction,
    /// `f(...) { .. }` as the whole body: a loop by a macro, and no function.
    UntypedFunction,
    /// This name of one or two letters stands as an expression, and no declaration of the patch has it.
    PlainName(Text),
    /// `x == NULL`, `x != 0`: without isomorphisms, only tests that are written so are found.
    WrittenTest,
    /// `expresion x;`: a declaration whose type has this name, which is nearly the word for this kind.
    MisspeltKind(Text, KindWord),
    /// `iterator x;`: a declaration whose type has this name, which is Coccinelle's word for a kind that isn't read.
    UnreadKind(Text),
}

/// What is probably a mistake in a patch.
#[derive(Drop)]
pub enum Note {
    /// No line of a body has a sign.
    NoSign,
    /// In the rule of this number, at the place of a token.
    InRule(u32, Option<Place>, Slip),
}

/// A slip, and the number of the token where it is.
#[derive(Drop)]
pub struct Found {
    pub token: u64,
    pub slip: Slip,
}

impl Slip {
    /// Returns an equal slip. Takes the same time at any length of the name.
    pub fn copy(&self, alloc: Global) -> Result<Slip, NoMemory>
        ensures same { IfOk result (λ s. s ≡ self.now) }
    {
        match self {
            Slip::IndentedMinus => Ok(Slip::IndentedMinus),
            Slip::LooplessFunction => Ok(Slip::LooplessFunction),
            Slip::UntypedFunction => Ok(Slip::UntypedFunction),
            Slip::PlainName(name) => Ok(Slip::PlainName(name.copy(alloc)?)),
            Slip::WrittenTest => Ok(Slip::WrittenTest),
            Slip::MisspeltKind(name, kind) => Ok(Slip::MisspeltKind(name.copy(alloc)?, *kind)),
            Slip::UnreadKind(name) => Ok(Slip::UnreadKind(name.copy(alloc)?)),
        }
    }
}

fn is_written_test(slip: &Slip) -> bool
    ensures { result ≡ told.is_written_test slip.now }
{
    matches!(slip, Slip::WrittenTest)
}

fn is_on_type(slip: &Slip) -> bool
    ensures { result ≡ told.is_on_type slip.now }
{
    matches!(slip, Slip::MisspeltKind(..) | Slip::UnreadKind(_))
}

/// Whether a note that a run tells where nothing was found is told where something was found too: one on the type of a
/// declaration.
pub fn is_told_always(note: &Note) -> bool
    ensures { result ≡ told.is_told_always note.now }
{
    match note {
        Note::NoSign => false,
        Note::InRule(_, _, slip) => is_on_type(slip),
    }
}

/// Whether a run that found nothing tells the note. `has_isos` says whether isomorphisms are named: with them, other forms of a
/// test are found too. `reports` says whether the run is to report what it finds: then a patch without signs is not useless.
pub fn is_told(has_isos: bool, reports: bool, note: &Note) -> bool
    ensures { result ≡ told.is_told has_isos reports note.now }
{
    match note {
        Note::NoSign => !reports,
        Note::InRule(_, _, slip) => !(has_isos && is_written_test(slip)),
    }
}
