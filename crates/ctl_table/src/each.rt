// What is made for each thing that may follow, one after another.
ghost use Rattle.std.specs.Prelude.{◌≡◌, ◌+◌, ◌<◌, ◌≤◌, ◌∷◌, ◌++◌, nat_lt, length, map, true, [], IfOk};
ghost use Rattle.std.specs.List.{list_all, range_with_len};
ghost use Rattle.std.specs.Option.{option_copied};
ghost use Rattle.smpl_patch.specs.Patterns.{is_statement as is_statement_in};
ghost use Rattle.smpl_patch.specs.Bodies.{element};
ghost use Rattle.smpl_patch.proofs.BodyLemmas.{dots_of};
ghost use Rattle.ctl_formula.specs.Plain as plain;
ghost use Rattle.ctl_formula.specs.Tables.{at, plains, Makes};
ghost use Rattle.ctl_table.specs.Table as table;
ghost use Rattle.ctl_table.specs.Settings.{setting_at, element_or_none, all_below, parts_at};
ghost use Rattle.ctl_table.specs.Settings.{nest_below, dots_below, all_made_below, next_at, follow, dots_row};
ghost use Rattle.ctl_table.specs.Settings.{dots_before, MakesAll, MakesBehind, MakesFollows, MakesLast, MakesSame};
ghost use Rattle.ctl_table.specs.Columns.{column as column_of, rows_within, first_of_column};

use crate::dots::{after_dots, deeper, follow_at, staying};
use crate::element::{after_next, dots, joined_next, part};
use crate::end_atoms::{LastAtoms, last_atoms_of};
use crate::ends_of::ends_of_option;
use crate::follow::{Continuation, DotsContinuation, NestPart, all_behind, some_look_back};
use crate::own::own_atom;
use crate::setting::Setting;
use crate::wrap::{and_all, first_branch};
use c_terms::NoMemory;
use ctl_formula::Parts;
use pattern_vars::{Place, Scope, copied_vars};
use smpl_patch::{Dots, Elem, Pattern, is_statement};
use smpl_terms::{Shared, Var};
use sqlite_items::Items;
use std::alloc::Global;

/// Returns the parts for what may follow an element, as reached from this scope.
pub fn follows_at(
    alloc: Global,
    parts: &mut Parts,
    m: &Setting,
    nexts: &[Continuation],
    scope: &Scope,
) -> Result<Vec<usize>, NoMemory>
    requires { all_made_below (length parts.old) nexts.now ≡ true }
    ensures made { IfOk result (λ is. MakesAll parts.old parts.new is.items
        (map (λ next. next_at (plains parts.old) (setting_at m.now) next scope.now) nexts.now)) }
{
    let mut made = Vec::new(alloc);
    for next in nexts {
        let g = follow_at(alloc, parts, m, next, scope)?;
        made.push(g)?;
    }
    Ok(made)
}

/// Returns the parts for an atom before each thing that may follow. The atom's own part is made once.
pub fn atoms(
    alloc: Global,
    parts: &mut Parts,
    m: &Setting,
    p: &Pattern,
    nexts: &[Continuation],
    vars: &[Var],
    scope: &Scope,
) -> Result<Vec<usize>, NoMemory>
    requires { all_made_below (length parts.old) nexts.now ≡ true }
    ensures made { IfOk result (λ is. MakesAll parts.old parts.new is.items
        (map (λ next. table.joined m.now.forall_walks (is_statement_in p.now)
        (table.own (setting_at m.now) vars.now p.now (plain.Atom p.now))
        (follow parts.old m.now next).start
        ((follow parts.old m.now next).at scope.now)) nexts.now)) }
{
    let f = own_atom(alloc, parts, m, vars, p)?;
    let statement = is_statement(p);
    joined_each(alloc, parts, m, statement, f, nexts, scope)
}

fn joined_each(
    alloc: Global,
    parts: &mut Parts,
    m: &Setting,
    statement: bool,
    f: usize,
    nexts: &[Continuation],
    scope: &Scope,
) -> Result<Vec<usize>, NoMemory>
    requires f { f < length parts.old }
    requires nexts { all_made_below (length parts.old) nexts.now ≡ true }
    ensures made { IfOk result (λ is. MakesAll parts.old parts.new is.items
        (map (λ next. table.joined m.now.forall_walks statement (at (plains parts.old) f)
        (follow parts.old m.now next).start
        ((follow parts.old m.now next).at scope.now)) nexts.now)) }
{
    let mut made = Vec::new(alloc);
    for next in nexts {
        let g = joined_next(alloc, parts, m, statement, f, next, scope)?;
        made.push(g)?;
    }
    Ok(made)
}

/// Returns the parts for a statement, whose own part is given, before each thing that may follow it.
pub fn after_each(
    alloc: Global,
    parts: &mut Parts,
    m: &Setting,
    f: usize,
    nexts: &[Continuation],
    scope: &Scope,
) -> Result<Vec<usize>, NoMemory>
    requires f { f < length parts.old }
    requires nexts { all_made_below (length parts.old) nexts.now ≡ true }
    ensures made { IfOk result (λ is. MakesAll parts.old parts.new is.items
        (map (λ next. plain.And (at (plains parts.old) f)
        (plain.After ((follow parts.old m.now next).at scope.now)))
        nexts.now)) }
{
    let mut made = Vec::new(alloc);
    for next in nexts {
        let g = after_next(alloc, parts, m, f, next, scope)?;
        made.push(g)?;
    }
    Ok(made)
}

/// Returns the conjunction of each of these parts with all of the others.
pub fn and_each(
    alloc: Global,
    parts: &mut Parts,
    fs: &[usize],
    more: &[usize],
) -> Result<Vec<usize>, NoMemory>
    requires fs { all_below (length parts.old) fs.now ≡ true }
    requires more { all_below (length parts.old) more.now ≡ true }
    ensures made { IfOk result (λ is. MakesAll parts.old parts.new is.items
        (map (λ f. table.and_all (at (plains parts.old) f) (parts_at parts.old more.now)) fs.now)) }
{
    let mut made = Vec::new(alloc);
    for f in fs {
        let g = and_all(parts, *f, more)?;
        made.push(g)?;
    }
    Ok(made)
}

/// Returns each of these parts as what follows, under the variables quantified at its suffix.
pub fn part_each(
    alloc: Global,
    parts: &mut Parts,
    m: &Setting,
    place: &Place,
    fs: &[usize],
) -> Result<Vec<Continuation>, NoMemory>
    requires { all_below (length parts.old) fs.now ≡ true }
    ensures made { IfOk result (λ made. MakesFollows (setting_at m.now) parts.old parts.new fs.now made.items
        (λ f. table.Other)
        (λ f b t. table.exists_all place.now.here (at (plains parts.old) f))) }
{
    let mut made = Vec::new(alloc);
    for f in fs {
        let g = part(alloc, parts, m, place, *f)?;
        made.push(g)?;
    }
    Ok(made)
}

/// Returns dots, or the end of a nest, whose `when` code is made, before each thing that may follow them. What is the
/// same for all of these is made once.
pub fn dots_each(
    alloc: Global,
    parts: &mut Parts,
    m: &Setting,
    after: Option<&Elem>,
    d: &Dots,
    whens: Vec<usize>,
    nest: Option<NestPart>,
    nexts: &[Continuation],
    place: &Place,
) -> Result<Vec<Continuation>, NoMemory>
    requires whens { all_below (length parts.old) whens.items ≡ true }
    requires nest { nest_below (length parts.old) nest ≡ true }
    requires nexts { all_made_below (length parts.old) nexts.now ≡ true }
    ensures made { IfOk result (λ made. MakesFollows (setting_at m.now) parts.old parts.new nexts.now made.items
        (λ next. table.Dots)
        (λ next b t. dots_row (setting_at m.now) parts.old
        b (element_or_none (option_copied after.entry))
        (table.stays (setting_at m.now).around ++ parts_at parts.old whens.items)
        (dots_of d.now).any (dots_of d.now).strict nest
        (follow parts.old m.now next) place.now t)) }
{
    let scope = &place.scope;
    let firsts = staying(alloc, parts, m.around, whens.as_slice())?;
    let after = after_dots(alloc, parts, m, d.any, after, scope)?;
    let here = copied_vars(alloc, place.here.as_slice())?;
    let made = DotsContinuation {
        firsts,
        any: d.any,
        strict: d.strict,
        after,
        nest,
        here,
    };
    let made = Shared::of(alloc, made)?;
    each_dots(alloc, parts, m, &made, nexts, scope)
}

/// Returns dots before each thing that may follow them, as reached from this scope.
fn each_dots(
    alloc: Global,
    parts: &mut Parts,
    m: &Setting,
    d: &Shared<DotsContinuation>,
    nexts: &[Continuation],
    scope: &Scope,
) -> Result<Vec<Continuation>, NoMemory>
    requires d { dots_below (length parts.old) d.now ≡ true }
    requires nexts { all_made_below (length parts.old) nexts.now ≡ true }
    ensures made { IfOk result (λ made. MakesFollows (setting_at m.now) parts.old parts.new nexts.now made.items
        (λ next. table.Dots)
        (λ next. dots_before (plains parts.old) (setting_at m.now) d.now (follow parts.old m.now next) scope.now)) }
{
    let mut made = Vec::new(alloc);
    for next in nexts {
        let g = dots(alloc, parts, m, d, next, scope)?;
        made.push(g)?;
    }
    Ok(made)
}

/// Returns the last atoms of an element in this scope, if it may be followed by dots that don't allow them.
fn last_atoms(
    alloc: Global,
    parts: &mut Parts,
    m: &Setting,
    e: &Elem,
    nexts: &[Continuation],
    scope: &Scope,
) -> Result<Option<Shared<LastAtoms>>, NoMemory>
    ensures made { IfOk result (λ found. MakesLast (setting_at m.now) (element e.now) scope.now
        parts.old parts.new nexts.now found) }
{
    if !some_look_back(nexts) {
        return Ok(None);
    }
    match ends_of_option(alloc, parts, m, true, Some(e), scope)? {
        None => Ok(None),
        Some(atoms) => {
            let found = last_atoms_of(alloc, parts, atoms, scope)?;
            Ok(Some(Shared::of(alloc, found)?))
        }
    }
}

/// Returns what may follow an element in this scope. Dots among it know the element's last atoms, which are read once
/// for all of them.
pub fn behind_each(
    alloc: Global,
    parts: &mut Parts,
    m: &Setting,
    e: &Elem,
    nexts: &[Continuation],
    scope: &Scope,
) -> Result<Vec<Continuation>, NoMemory>
    requires { all_made_below (length parts.old) nexts.now ≡ true }
    ensures made { IfOk result (λ found. MakesBehind (setting_at m.now) (element e.now) scope.now
        parts.old parts.new nexts.now found.items) }
{
    let before = last_atoms(alloc, parts, m, e, nexts, scope)?;
    all_behind(alloc, &before, nexts)
}

/// Returns what may follow, for use inside this scope. Which atoms are before dots is worked out as far as the scope
/// determines it.
pub fn deeper_each(
    alloc: Global,
    parts: &mut Parts,
    m: &Setting,
    nexts: &[Continuation],
    scope: &Scope,
) -> Result<Vec<Continuation>, NoMemory>
    requires { all_made_below (length parts.old) nexts.now ≡ true }
    ensures made { IfOk result (λ found. MakesSame (setting_at m.now) scope.now parts.old parts.new nexts.now found.items) }
{
    let mut found = Vec::new(alloc);
    for next in nexts {
        let g = deeper(alloc, parts, m, next, scope)?;
        found.push(g)?;
    }
    Ok(found)
}

/// Returns the parts for a disjunction without branches, before each thing that may follow it.
pub fn no_branches(
    alloc: Global,
    parts: &mut Parts,
    nexts: &[Continuation],
) -> Result<Vec<usize>, NoMemory>
    ensures made { IfOk result (λ is. MakesAll parts.old parts.new is.items
        (map (λ next. table.any_of []) nexts.now)) }
{
    let mut made = Vec::new(alloc);
    for _next in nexts {
        let f = first_branch(alloc, parts, &[], &[])?;
        made.push(f)?;
    }
    Ok(made)
}

/// Returns the parts for the first branch that holds, with each thing that may follow. A row has the parts of one
/// branch: the branch with each thing that follows, and last the branch alone. The last branch has no row: it is never
/// excluded, so its parts, the ends, are only those with what follows.
pub fn first_branches(
    alloc: Global,
    parts: &mut Parts,
    rows: &[Items<usize>],
    ends: &[usize],
    last: usize,
) -> Result<Vec<usize>, NoMemory>
    requires most { length ends.now ≤ last + 1 }
    requires within { rows_within (length parts.old) (last + 1) rows.now ≡ true }
    requires ends { all_below (length parts.old) ends.now ≡ true }
    ensures made { IfOk result (λ is. MakesAll parts.old parts.new is.items
        (map (first_of_column (plains parts.old) rows.now ends.now last) (range_with_len 0 (length ends.now)))) }
{
    let lone = column(alloc, rows, last)?;
    let alone = lone.as_slice();
    let mut made = Vec::new(alloc);
    for (j, end) in ends.iter().enumerate() {
        let f = first_of(alloc, parts, rows, j, *end, alone)?;
        made.push(f)?;
    }
    Ok(made)
}

/// Returns the part for the first branch that holds, given the column of the branches with what follows, and the part
/// of the last branch, which comes after them.
fn first_of(
    alloc: Global,
    parts: &mut Parts,
    rows: &[Items<usize>],
    j: usize,
    end: usize,
    alone: &[usize],
) -> Result<usize, NoMemory>
    requires longer { list_all (λ row. nat_lt j (length row)) rows.now ≡ true }
    requires with { all_below (length parts.old) (column_of j rows.now) ≡ true }
    requires end { end < length parts.old }
    requires alone { all_below (length parts.old) alone.now ≡ true }
    ensures made { IfOk result (λ i. Makes parts.old parts.new i
        (table.any_of (table.choices []
        (parts_at parts.old (column_of j rows.now) ++ at (plains parts.old) end ∷ [])
        (parts_at parts.old alone.now)))) }
{
    let mut with = column(alloc, rows, j)?;
    with.push(end)?;
    first_branch(alloc, parts, with.as_slice(), alone)
}

/// Returns the part with this number in each row.
fn column(alloc: Global, rows: &[Items<usize>], j: usize) -> Result<Vec<usize>, NoMemory>
    requires { list_all (λ row. nat_lt j (length row)) rows.now ≡ true }
    ensures { IfOk result (λ found. found.items ≡ column_of j rows.now) }
{
    let mut found = Vec::new(alloc);
    for row in rows {
        let parts = row.as_slice();
        found.push(parts[j])?;
    }
    Ok(found)
}
