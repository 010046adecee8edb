// What follows an element, as reached from a scope.
ghost use Rattle.std.specs.Prelude.{◌≡◌, ◌<◌, ◌++◌, IfOk, OnOk, true, false, length};
ghost use Rattle.std.specs.Prelude.{None, [], if◌then◌else◌};
ghost use Rattle.std.specs.Option.{option_copied};
ghost use Rattle.ctl_formula.specs.Tables.{at, plains, Makes};
ghost use Rattle.ctl_table.specs.Table as table;
ghost use Rattle.ctl_table.specs.Settings.{setting_at, element_or_none, all_below, parts_at};
ghost use Rattle.ctl_table.specs.Settings.{some_below};
ghost use Rattle.ctl_table.specs.Settings.{some_at, made_below, next_at, dots_below};
ghost use Rattle.ctl_table.specs.Settings.{before_at, before_below};
ghost use Rattle.ctl_table.specs.Settings.{dots_at as dots_from, passed as passed_by, MakesAll};
ghost use Rattle.ctl_table.specs.Settings.{IsSame, MakesSome};

use crate::end_atoms::{LastAtoms, at_inner, before_dots, deeper_atoms};
use crate::ends_of::ends_of_option;
use crate::follow::{Continuation, DotsContinuation};
use crate::setting::Setting;
use crate::wrap::{all_of, exists_all, nested, until};
use c_terms::NoMemory;
use ctl_formula::{Node, Parts};
use pattern_vars::{Scope, VarSet, extended};
use smpl_patch::Elem;
use smpl_terms::{Shared, Var};
use std::alloc::Global;

/// Returns the part for what follows an element, as reached from this scope.
pub fn follow_at(
    alloc: Global,
    parts: &mut Parts,
    m: &Setting,
    next: &Continuation,
    scope: &Scope,
) -> Result<usize, NoMemory>
    requires { made_below (length parts.old) next.now ≡ true }
    ensures made { IfOk result (λ i. Makes parts.old parts.new i
        (next_at (plains parts.old) (setting_at m.now) next.now scope.now)) }
{
    match next {
        Continuation::Nothing => parts.push(Node::True),
        Continuation::Part(_, f) => Ok(*f),
        Continuation::Dots(d, target, before) => {
            dots_at(
                alloc,
                parts,
                m.forall_walks,
                before,
                d.get(),
                *target,
                scope,
            )
        }
    }
}

/// Returns the part for dots that lead to a part, after an element with these last atoms, as reached from this scope.
fn dots_at(
    alloc: Global,
    parts: &mut Parts,
    forall_walks: bool,
    before: &Option<Shared<LastAtoms>>,
    d: &DotsContinuation,
    target: usize,
    scope: &Scope,
) -> Result<usize, NoMemory>
    requires before { before_below (length parts.old) before.now ≡ true }
    requires d { dots_below (length parts.old) d.now ≡ true }
    requires target { target < length parts.old }
    ensures made { IfOk result (λ i. Makes parts.old parts.new i (dots_from (plains parts.old)
        forall_walks (before_at (plains parts.old) before.now) d.now target scope.now)) }
{
    let here = d.here.as_slice();
    let around = extended(alloc, scope, here)?;
    let through = condition(alloc, parts, before, d, &around)?;
    let f = passed(parts, forall_walks, d, through, target)?;
    exists_all(alloc, parts, here, f)
}

/// Returns the part for what holds at each node that dots pass.
fn condition(
    alloc: Global,
    parts: &mut Parts,
    before: &Option<Shared<LastAtoms>>,
    d: &DotsContinuation,
    scope: &Scope,
) -> Result<usize, NoMemory>
    requires before { before_below (length parts.old) before.now ≡ true }
    requires d { dots_below (length parts.old) d.now ≡ true }
    ensures made { IfOk result (λ i. Makes parts.old parts.new i
        (table.condition d.now.any (parts_at parts.old d.now.firsts.items)
        (before_at (plains parts.old) before.now scope.now)
        (some_at (plains parts.old) d.now.after))) }
{
    let mut found = copied_numbers(alloc, d.firsts.as_slice())?;
    push_last_atoms(alloc, parts, before, d, scope, &mut found)?;
    all_of(parts, found.as_slice())
}

/// Appends further parts: `not` the element before the dots and `not` the one after them, unless there is a `when any`.
fn push_last_atoms(
    alloc: Global,
    parts: &mut Parts,
    before: &Option<Shared<LastAtoms>>,
    d: &DotsContinuation,
    scope: &Scope,
    found: &mut Vec<usize>,
) -> Result<(), NoMemory>
    requires before { before_below (length parts.old) before.now ≡ true }
    requires d { dots_below (length parts.old) d.now ≡ true }
    requires found { all_below (length parts.old) found.old.items ≡ true }
    ensures made { OnOk result (MakesAll parts.old parts.new found.new.items
        (parts_at parts.old found.old.items
        ++ (if d.now.any then [] else (table.nots (before_at (plains parts.old)
        before.now scope.now)
        ++ table.nots (some_at (plains parts.old) d.now.after))))) }
{
    if d.any {
        return Ok(());
    }
    let ends_of = before_dots(alloc, parts, before, scope)?;
    push_not(parts, ends_of, found)?;
    push_not(parts, d.after, found)
}

fn copied_numbers(alloc: Global, numbers: &[usize]) -> Result<Vec<usize>, NoMemory>
    ensures { IfOk result (λ copies. copies.items ≡ numbers.now) }
{
    let mut copies = Vec::new(alloc);
    for n in numbers {
        copies.push(*n)?;
    }
    Ok(copies)
}

/// Appends the part `not f`, if there is an `f`.
fn push_not(parts: &mut Parts, f: Option<usize>, found: &mut Vec<usize>) -> Result<(), NoMemory>
    requires f { some_below (length parts.old) f ≡ true }
    requires found { all_below (length parts.old) found.old.items ≡ true }
    ensures made { OnOk result (MakesAll parts.old parts.new found.new.items
        (parts_at parts.old found.old.items ++ table.nots (some_at (plains parts.old) f))) }
{
    if let Some(f) = f {
        let not = parts.push(Node::Not(f))?;
        found.push(not)?;
    }
    Ok(())
}

/// Returns the part that says that dots stay in the block around them, if there is one, followed by these parts.
pub fn staying(
    alloc: Global,
    parts: &mut Parts,
    around: Option<&Var>,
    whens: &[usize],
) -> Result<Vec<usize>, NoMemory>
    requires { all_below (length parts.old) whens.now ≡ true }
    ensures made { IfOk result (λ firsts. MakesAll parts.old parts.new firsts.items
        (table.stays (option_copied around.entry) ++ parts_at parts.old whens.now)) }
{
    match around {
        None => copied_numbers(alloc, whens),
        Some(b) => {
            let b = b.copy(alloc)?;
            let inside = parts.push(Node::Inside(b))?;
            let mut firsts = Vec::new(alloc);
            firsts.push(inside)?;
            push_numbers(whens, &mut firsts)?;
            Ok(firsts)
        }
    }
}

fn push_numbers(more: &[usize], numbers: &mut Vec<usize>) -> Result<(), NoMemory>
    ensures { OnOk result (numbers.new.items ≡ numbers.old.items ++ more.now) }
{
    for n in more {
        numbers.push(*n)?;
    }
    Ok(())
}

/// Returns the part for dots or a nest with this condition.
fn passed(
    parts: &mut Parts,
    forall_walks: bool,
    d: &DotsContinuation,
    through: usize,
    target: usize,
) -> Result<usize, NoMemory>
    requires d { dots_below (length parts.old) d.now ≡ true }
    requires through { through < length parts.old }
    requires target { target < length parts.old }
    ensures made { IfOk result (λ i. Makes parts.old parts.new i
        (passed_by (plains parts.old) forall_walks d.now.nest d.now.strict (at (plains parts.old) through)
        (at (plains parts.old) target))) }
{
    match d.nest {
        None => until(parts, forall_walks, d.strict, through, target),
        Some(n) => nested(
            parts,
            forall_walks,
            n.plus,
            d.strict,
            through,
            n.part,
            target,
        ),
    }
}

/// Returns the first atoms of the element after dots; with `when any` there are none.
pub fn after_dots(
    alloc: Global,
    parts: &mut Parts,
    m: &Setting,
    any: bool,
    after: Option<&Elem>,
    scope: &Scope,
) -> Result<Option<usize>, NoMemory>
    ensures made { IfOk result (λ found. MakesSome parts.old parts.new found
        (if any then None else table.ends_of_option (setting_at m.now) false (element_or_none
        (option_copied after.entry)) scope.now)) }
{
    if any {
        return Ok(None);
    }
    match ends_of_option(alloc, parts, m, false, after, scope)? {
        None => Ok(None),
        Some(end_atoms) => at_inner(alloc, parts, &end_atoms, &VarSet::new(alloc)),
    }
}

/// Returns what follows, for use inside this scope.
pub fn deeper(
    alloc: Global,
    parts: &mut Parts,
    m: &Setting,
    next: &Continuation,
    scope: &Scope,
) -> Result<Continuation, NoMemory>
    requires { made_below (length parts.old) next.now ≡ true }
    ensures made { IfOk result (λ found. IsSame (setting_at m.now) scope.now parts.old parts.new next.now found) }
{
    match next {
        Continuation::Nothing => Ok(Continuation::Nothing),
        Continuation::Part(start, f) => Ok(Continuation::Part(*start, *f)),
        Continuation::Dots(d, target, before) => match before {
            None => next.share(),
            Some(known) => {
                let known = deeper_atoms(alloc, parts, known, scope)?;
                Ok(Continuation::Dots(d.share()?, *target, Some(known)))
            }
        },
    }
}
