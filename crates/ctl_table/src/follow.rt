// What follows a sequence, once its parts are made.
ghost use Rattle.std.specs.Prelude.{◌≡◌, ◌-◌, length, map, slice_get, true, IfOk};
ghost use Rattle.std.specs.List.{list_any};
ghost use Rattle.ctl_table.specs.Settings.{start_at, made_start, behind, looks_back};
ghost use Rattle.ctl_table.specs.Columns.{EndsWithNothing};

use crate::end_atoms::LastAtoms;
use c_terms::NoMemory;
use smpl_terms::{Shared, Var};
use sqlite_items::Items;
use std::alloc::Global;

/// How what follows begins.
#[derive(Clone, Copy, Debug, PartialEq, Eq)]
pub enum Start {
    Nothing,
    Brace,
    Dots,
    Other,
}

/// A nest's part, and whether the nest is `<+...`.
#[derive(Clone, Copy)]
pub struct NestPart {
    pub plus: bool,
    pub part: usize,
}

/// Dots whose parts are made, except for their target and the part of their condition about the element before them.
#[derive(Drop)]
pub struct DotsContinuation {
    /// The parts saying that the dots stay in the block around them, if there is one, followed by `not` each piece of
    /// `when` code.
    pub firsts: Vec<usize>,
    pub any: bool,
    pub strict: bool,
    /// The first atoms of the element after the dots.
    pub after: Option<usize>,
    pub nest: Option<NestPart>,
    /// The variables quantified at the suffix that begins with the dots.
    pub here: Items<Var>,
}

/// What follows. Made dots are allocated once and shared by copies.
#[derive(Drop)]
pub enum Continuation {
    Nothing,
    Part(Start, usize),
    /// Dots that lead to a part, after an element with these last atoms. None are known if no element precedes the
    /// dots, if it has no such atoms, or if these don't count.
    Dots(Shared<DotsContinuation>, usize, Option<Shared<LastAtoms>>),
}

/// Returns the same atoms, shared.
fn share_before(before: &Option<Shared<LastAtoms>>) -> Result<Option<Shared<LastAtoms>>, NoMemory>
    ensures { IfOk result (λ r. r ≡ before.now) }
{
    match before {
        None => Ok(None),
        Some(atoms) => Ok(Some(atoms.share()?)),
    }
}

impl Continuation {
    /// Returns the same value. Allocates nothing.
    pub fn share(&self) -> Result<Continuation, NoMemory>
        ensures same { IfOk result (λ r. r ≡ self.now) }
    {
        match self {
            Continuation::Nothing => Ok(Continuation::Nothing),
            Continuation::Part(start, f) => Ok(Continuation::Part(*start, *f)),
            Continuation::Dots(d, target, before) => {
                Ok(Continuation::Dots(d.share()?, *target, share_before(before)?))
            }
        }
    }

    /// Returns the same value, after an element with these last atoms. Allocates nothing.
    fn behind(&self, before: &Option<Shared<LastAtoms>>) -> Result<Continuation, NoMemory>
        ensures { IfOk result (λ r. r ≡ behind before.now self.now) }
    {
        match self {
            Continuation::Nothing => Ok(Continuation::Nothing),
            Continuation::Part(start, f) => Ok(Continuation::Part(*start, *f)),
            Continuation::Dots(d, target, _) => {
                Ok(Continuation::Dots(d.share()?, *target, share_before(before)?))
            }
        }
    }
}

pub fn start_of(made: &Continuation) -> Start
    ensures { start_at result ≡ made_start made.now }
{
    match made {
        Continuation::Nothing => Start::Nothing,
        Continuation::Part(start, _) => *start,
        Continuation::Dots(_, _, _) => Start::Dots,
    }
}

/// Returns what may follow, with nothing as the last; if it wasn't the last, it is appended.
pub fn with_nothing(alloc: Global, nexts: &[Continuation]) -> Result<Vec<Continuation>, NoMemory>
    ensures { IfOk result (λ all. EndsWithNothing nexts.now all.items) }
{
    let mut all = shared(alloc, nexts)?;
    if ends_with_nothing(nexts) {
        return Ok(all);
    }
    all.push(Continuation::Nothing)?;
    Ok(all)
}

fn shared(alloc: Global, nexts: &[Continuation]) -> Result<Vec<Continuation>, NoMemory>
    ensures { IfOk result (λ all. all.items ≡ nexts.now) }
{
    let mut all = Vec::new(alloc);
    for next in nexts {
        let next = next.share()?;
        all.push(next)?;
    }
    Ok(all)
}

fn ends_with_nothing(nexts: &[Continuation]) -> bool
    ensures { result ≡ true → slice_get nexts.now (length nexts.now - 1) ≡ Some Continuation.Nothing }
{
    matches!(nexts, [.., Continuation::Nothing])
}

/// Returns all of these, after an element with these last atoms. Allocates only the list.
pub fn all_behind(
    alloc: Global,
    before: &Option<Shared<LastAtoms>>,
    nexts: &[Continuation],
) -> Result<Vec<Continuation>, NoMemory>
    ensures { IfOk result (λ all. all.items ≡ map (behind before.now) nexts.now) }
{
    let mut all = Vec::new(alloc);
    for next in nexts {
        let next = next.behind(before)?;
        all.push(next)?;
    }
    Ok(all)
}

/// Whether these are dots that may not pass the element before them.
fn looks_back(made: &Continuation) -> bool
    ensures { result ≡ looks_back made.now }
{
    match made {
        Continuation::Nothing => false,
        Continuation::Part(_, _) => false,
        Continuation::Dots(d, _, _) => !d.get().any,
    }
}

/// Whether some of these are dots that may not pass the element before them.
pub fn some_look_back(nexts: &[Continuation]) -> bool
    ensures { result ≡ list_any looks_back nexts.now }
{
    nexts.iter().any(|next| looks_back(next))
}
