// The atoms of an element that are beside dots.
ghost use Rattle.std.specs.Prelude.{◌≡◌, ◌++◌, ◌-◌, ◌<◌, ◌≤◌, if◌then◌else◌, Some, IfOk, OnOk, true};
ghost use Rattle.std.specs.Option.{option_copied};
ghost use Rattle.smpl_patch.specs.Bodies.{body, element};
ghost use Rattle.smpl_patch.specs.Bodies as bodies;
ghost use Rattle.smpl_patch.proofs.BodyLemmas.{bodies as bodies_of};
ghost use Rattle.ctl_table.specs.Table as table;
ghost use Rattle.ctl_table.specs.Settings.{setting_at, element_or_none};
ghost use Rattle.ctl_table.specs.EndAtoms.{end_atoms_list, MakesEndAtoms};

use crate::end_atoms::EndAtoms;
use crate::setting::Setting;
use crate::unquantified::{standing, unquantified};
use c_terms::NoMemory;
use ctl_formula::{Node, Parts};
use pattern_vars::Scope;
use smpl_patch::{Elem, Pattern, is_statement};
use sqlite_items::Items;
use std::alloc::Global;

/// Returns the last or the first atoms of an element, in this scope. Each is read once.
#[cycle(ends_of)]
fn ends_of(
    alloc: Global,
    parts: &mut Parts,
    m: &Setting,
    last: bool,
    e: &Elem,
    scope: &Scope,
) -> Result<Option<EndAtoms>, NoMemory>
    ensures made { IfOk result (λ found. MakesEndAtoms parts.old parts.new found
        (λ more. table.ends_of (setting_at m.now) last (element e.now) (scope.now ++ more))) }
{
    match e {
        Elem::Atom(p) => ends_of_atom(alloc, parts, m, p, scope),
        Elem::Compound(h, _, _) => ends_of_head(alloc, parts, m, h, scope),
        Elem::Block(_, _, _) => Ok(None),
        Elem::Gap(_) => Ok(None),
        Elem::Nest(_, _, _) => Ok(None),
        Elem::AnyOf(bodies) => ends_of_any(alloc, parts, m, last, bodies.as_slice(), scope),
        Elem::AllOf(bodies) => ends_of_all(alloc, parts, m, last, bodies.as_slice(), scope),
    }
}

fn ends_of_atom(
    alloc: Global,
    parts: &mut Parts,
    m: &Setting,
    p: &Pattern,
    scope: &Scope,
) -> Result<Option<EndAtoms>, NoMemory>
    ensures made { IfOk result (λ found. MakesEndAtoms parts.old parts.new found
        (λ more. table.ends_of (setting_at m.now) true (bodies.Atom p.now) (scope.now ++ more))) }
{
    if is_statement(p) {
        return Ok(None);
    }
    ends_of_head(alloc, parts, m, p, scope)
}

fn ends_of_head(
    alloc: Global,
    parts: &mut Parts,
    m: &Setting,
    p: &Pattern,
    scope: &Scope,
) -> Result<Option<EndAtoms>, NoMemory>
    ensures made { IfOk result (λ found. MakesEndAtoms parts.old parts.new found
        (λ more. Some (table.copy (setting_at m.now) p.now (scope.now ++ more)))) }
{
    let vars = standing(alloc, m, p)?;
    let vars = unquantified(alloc, scope, vars.as_slice())?;
    let f = parts.push(Node::Atom(p.copy(alloc)?))?;
    Ok(Some(EndAtoms::Atom(f, vars)))
}

#[cycle(ends_of)]
fn ends_of_body(
    alloc: Global,
    parts: &mut Parts,
    m: &Setting,
    last: bool,
    b: &[Elem],
    scope: &Scope,
) -> Result<Option<EndAtoms>, NoMemory>
    ensures made { IfOk result (λ found. MakesEndAtoms parts.old parts.new found
        (λ more. table.ends_of_body (setting_at m.now) last (body b.now) (scope.now ++ more))) }
{
    if b.len() == 0 {
        return Ok(None);
    }
    let i = end_of(b.len(), last);
    ends_of(alloc, parts, m, last, &b[i], scope)
}

/// Returns the index of the last or the first of `len` items.
fn end_of(len: usize, last: bool) -> usize
    requires { 1 ≤ len }
    ensures value { result ≡ (if last then len - 1 else 0) }
    ensures within { result < len }
{
    if last { len - 1 } else { 0 }
}

/// Returns those of some branches: one of them.
#[cycle(ends_of)]
fn ends_of_any(
    alloc: Global,
    parts: &mut Parts,
    m: &Setting,
    last: bool,
    bs: &[Items<Elem>],
    scope: &Scope,
) -> Result<Option<EndAtoms>, NoMemory>
    ensures made { IfOk result (λ found. MakesEndAtoms parts.old parts.new found
        (λ more. table.or_some
        (table.ends_of_each (setting_at m.now) last (bodies_of bs.now) (scope.now ++ more)))) }
{
    let mut found = Vec::new(alloc);
    for b in bs {
        let body = b.as_slice();
        let end_atoms = ends_of_body(alloc, parts, m, last, body, scope)?;
        push_end_atoms(end_atoms, &mut found)?;
    }
    Ok(Some(EndAtoms::Any(Items::from_vec(found))))
}

/// Returns those of the first branch.
#[cycle(ends_of)]
fn ends_of_all(
    alloc: Global,
    parts: &mut Parts,
    m: &Setting,
    last: bool,
    bs: &[Items<Elem>],
    scope: &Scope,
) -> Result<Option<EndAtoms>, NoMemory>
    ensures made { IfOk result (λ found. MakesEndAtoms parts.old parts.new found
        (λ more. table.ends_of_first (setting_at m.now) last (bodies_of bs.now) (scope.now ++ more))) }
{
    match bs {
        [] => Ok(None),
        [b, ..] => ends_of_body(alloc, parts, m, last, b.as_slice(), scope),
    }
}

fn push_end_atoms(end_atoms: Option<EndAtoms>, found: &mut Vec<EndAtoms>) -> Result<(), NoMemory>
    ensures { OnOk result (found.new.items ≡ found.old.items ++ end_atoms_list end_atoms) }
{
    if let Some(end_atoms) = end_atoms {
        found.push(end_atoms)?;
    }
    Ok(())
}

/// Returns the last or the first atoms of an element beside dots, if there is one.
pub fn ends_of_option(
    alloc: Global,
    parts: &mut Parts,
    m: &Setting,
    last: bool,
    e: Option<&Elem>,
    scope: &Scope,
) -> Result<Option<EndAtoms>, NoMemory>
    ensures made { IfOk result (λ found. MakesEndAtoms parts.old parts.new found
        (λ more. table.ends_of_option (setting_at m.now) last
        (element_or_none (option_copied e.entry)) (scope.now ++ more))) }
{
    match e {
        None => Ok(None),
        Some(e) => ends_of(alloc, parts, m, last, e, scope),
    }
}
