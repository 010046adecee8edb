// The atoms of an element that are beside dots, as reached from a scope.
ghost use Rattle.std.specs.Prelude.{◌≡◌, ◌<◌, ◌≤◌, ◌++◌, ◌||◌, Bool, true, not, drop, length, IfOk, OnOk};
ghost use Rattle.std.specs.List.{filter};
ghost use Rattle.smpl_terms.specs.declared.var.Var.{Var as Variable};
ghost use Rattle.pattern_vars.specs.Reads.{has};
ghost use Rattle.ctl_formula.specs.Tables.{at, plains, Makes};
ghost use Rattle.ctl_table.specs.Table as table;
ghost use Rattle.ctl_table.specs.EndAtoms.{end_atoms_at, end_atoms_below, names_in};
ghost use Rattle.ctl_table.specs.Settings.{option_numbers, from_inner, before_at, before_below};
ghost use Rattle.ctl_table.specs.Settings.{last_atoms_at, last_atoms_below, MakesLastAtoms, MakesDeeper, MakesSome};

use crate::wrap::{exists_all, or_some};
use c_terms::NoMemory;
use ctl_formula::Parts;
use pattern_vars::{Scope, VarSet, among, copied_vars, put_vars};
use smpl_terms::{Shared, Var};
use sqlite_items::Items;
use std::alloc::Global;

/// The last or the first atoms of an element. Their parts are made except for their quantifiers, which depend on what
/// is quantified at the point from which the dots beside the element are reached.
#[derive(Drop)]
pub enum EndAtoms {
    /// An atom's part, and those of its local variables that aren't quantified around the element.
    Atom(usize, Items<Var>),
    /// One of these.
    Any(Items<EndAtoms>),
}

/// The last atoms of an element, for dots after it.
#[derive(Drop)]
pub struct LastAtoms {
    pub atoms: Shared<EndAtoms>,
    /// Those of their local variables that aren't quantified around the element.
    pub names: Shared<VarSet>,
    /// Those of `names` that are quantified inside the element around the current place.
    pub inner: Items<Var>,
    /// The atoms' part if no others are quantified inside the element; `None` if there are no atoms.
    pub alone: Option<usize>,
    /// The number of variables quantified around the current place.
    pub around: usize,
}

/// Returns those of the variables that the set lacks.
fn outside(alloc: Global, inner: &VarSet, vars: &[Var]) -> Result<Items<Var>, NoMemory>
    ensures { IfOk result (λ found. found ≡ filter (λ x. not (table.in_scope inner.now x)) vars.now) }
{
    let mut found = Items::new(alloc);
    for x in vars {
        let there = inner.has(alloc, x)?;
        if !there {
            found.push(x.copy(alloc)?)?;
        }
    }
    Ok(found)
}

/// Returns an atom's part under the quantifiers of those of its variables that aren't among these.
fn atom_at(
    alloc: Global,
    parts: &mut Parts,
    f: usize,
    vars: &[Var],
    inner: &VarSet,
) -> Result<usize, NoMemory>
    requires { f < length parts.old }
    ensures made { IfOk result (λ i. Makes parts.old parts.new i
        (table.exists_all (filter (λ x. not (table.in_scope inner.now x)) vars.now) (at (plains parts.old) f))) }
{
    let here = outside(alloc, inner, vars)?;
    exists_all(alloc, parts, here.as_slice(), f)
}

/// Returns the atoms as they appear in the condition of dots, given that these variables are quantified inside the
/// element. Each of the atoms' variables is looked up among them.
pub fn at_inner(
    alloc: Global,
    parts: &mut Parts,
    end_atoms: &EndAtoms,
    inner: &VarSet,
) -> Result<Option<usize>, NoMemory>
    requires { end_atoms_below (length parts.old) end_atoms.now ≡ true }
    ensures made { IfOk result (λ found. MakesSome parts.old parts.new found
        (end_atoms_at (plains parts.old) end_atoms.now inner.now)) }
{
    match end_atoms {
        EndAtoms::Atom(f, vars) => Ok(Some(atom_at(alloc, parts, *f, vars.as_slice(), inner)?)),
        EndAtoms::Any(several) => {
            let mut found = Vec::new(alloc);
            for one in several.as_slice() {
                let f = at_inner(alloc, parts, one, inner)?;
                push_some(f, &mut found)?;
            }
            or_some(parts, found.as_slice())
        }
    }
}

fn push_some(f: Option<usize>, found: &mut Vec<usize>) -> Result<(), NoMemory>
    ensures { OnOk result (found.new.items ≡ found.old.items ++ option_numbers f) }
{
    if let Some(f) = f {
        found.push(f)?;
    }
    Ok(())
}

/// Adds the variables that are kept with the atoms.
fn put_names(alloc: Global, end_atoms: &EndAtoms, names: &mut VarSet) -> Result<(), NoMemory>
    ensures { OnOk result ((y : Variable) → has names.new y ≡ (has names.old y || names_in end_atoms.now y)) }
{
    match end_atoms {
        EndAtoms::Atom(_, vars) => put_vars(alloc, vars.as_slice(), names),
        EndAtoms::Any(several) => {
            for one in several.as_slice() {
                put_names(alloc, one, names)?;
            }
            Ok(())
        }
    }
}

/// Returns the atoms, for dots after their element.
pub fn last_atoms_of(
    alloc: Global,
    parts: &mut Parts,
    atoms: EndAtoms,
    scope: &Scope,
) -> Result<LastAtoms, NoMemory>
    requires { end_atoms_below (length parts.old) atoms ≡ true }
    ensures made { IfOk result (λ found. MakesLastAtoms parts.old parts.new scope.now atoms found) }
{
    let around = scope.len().ok_or(NoMemory)?;
    let alone = at_inner(alloc, parts, &atoms, &VarSet::new(alloc))?;
    let mut names = VarSet::new(alloc);
    put_names(alloc, &atoms, &mut names)?;
    Ok(LastAtoms {
        atoms: Shared::of(alloc, atoms)?,
        names: Shared::of(alloc, names)?,
        inner: Items::new(alloc),
        alone,
        around,
    })
}

/// Returns both lists of variables as one set.
fn set_of(alloc: Global, vars: &[Var], more: &[Var]) -> Result<VarSet, NoMemory>
    ensures { IfOk result (λ set. (y : Variable) → has set y ≡ (has vars.now y || has more.now y)) }
{
    let mut set = VarSet::new(alloc);
    put_vars(alloc, vars, &mut set)?;
    put_vars(alloc, more, &mut set)?;
    Ok(set)
}

/// Returns the atoms, given that these of their variables are quantified inside the element too. If there are none,
/// nothing is looked up.
fn where_inner(
    alloc: Global,
    parts: &mut Parts,
    n: &LastAtoms,
    inner: &[Var],
) -> Result<Option<usize>, NoMemory>
    requires { last_atoms_below (length parts.old) n.now ≡ true }
    ensures made { IfOk result (λ found. MakesSome parts.old parts.new found
        (from_inner (plains parts.old) n.now inner.now)) }
{
    if inner.len() == 0 {
        return Ok(n.alone);
    }
    let inner = set_of(alloc, n.inner.as_slice(), inner)?;
    at_inner(alloc, parts, n.atoms.get(), &inner)
}

/// Returns the atoms as they appear in the condition of dots after their element, from this scope. If they have local
/// variables, each variable that the scope has besides those around the current place is looked up; the atoms are
/// visited if one of them is theirs.
fn from_scope(
    alloc: Global,
    parts: &mut Parts,
    n: &LastAtoms,
    scope: &Scope,
) -> Result<Option<usize>, NoMemory>
    requires { last_atoms_below (length parts.old) n.now ≡ true }
    ensures made { IfOk result (λ found. MakesSome parts.old parts.new found
        (last_atoms_at (plains parts.old) n.now scope.now)) }
{
    if n.names.get().len() == 0 {
        return Ok(n.alone);
    }
    let inner = inner_names(alloc, n, scope)?;
    where_inner(alloc, parts, n, inner.as_slice())
}

/// Returns those of the atoms' variables that the scope has besides those around the current place.
fn inner_names(alloc: Global, n: &LastAtoms, scope: &Scope) -> Result<Items<Var>, NoMemory>
    ensures { IfOk result (λ inner. inner ≡ filter (has n.now.names) (drop n.now.around scope.now)) }
{
    let more = scope.since(alloc, n.around)?;
    among(alloc, n.names.get(), more.as_slice())
}

/// Returns the variables, followed by the others.
fn joined(alloc: Global, vars: &[Var], more: &[Var]) -> Result<Items<Var>, NoMemory>
    ensures { IfOk result (λ all. all ≡ vars.now ++ more.now) }
{
    let mut all = copied_vars(alloc, vars)?;
    for x in more {
        all.push(x.copy(alloc)?)?;
    }
    Ok(all)
}

/// Returns the atoms as they are known from this scope on: what the scope has besides those around the current place is
/// looked up now, and never again further inside.
fn from_here(
    alloc: Global,
    parts: &mut Parts,
    n: &LastAtoms,
    scope: &Scope,
    around: usize,
) -> Result<LastAtoms, NoMemory>
    requires below { last_atoms_below (length parts.old) n.now ≡ true }
    requires around { around ≡ length scope.now }
    requires inside { n.now.around ≤ around }
    ensures made { IfOk result (λ found. MakesDeeper parts.old parts.new scope.now n.now found) }
{
    let found = inner_names(alloc, n, scope)?;
    let alone = where_inner(alloc, parts, n, found.as_slice())?;
    let inner = joined(alloc, n.inner.as_slice(), found.as_slice())?;
    Ok(LastAtoms {
        atoms: n.atoms.share()?,
        names: n.names.share()?,
        inner,
        alone,
        around,
    })
}

/// Returns the same atoms for dots that are reached from scopes that begin with this one. If they have local variables,
/// each variable that the scope has besides those around the current place is looked up.
pub fn deeper_atoms(
    alloc: Global,
    parts: &mut Parts,
    n: &Shared<LastAtoms>,
    scope: &Scope,
) -> Result<Shared<LastAtoms>, NoMemory>
    requires { last_atoms_below (length parts.old) n.now ≡ true }
    ensures made { IfOk result (λ found. MakesDeeper parts.old parts.new scope.now n.now found) }
{
    let around = scope.len().ok_or(NoMemory)?;
    let known = n.get();
    if known.names.get().len() == 0 || around <= known.around {
        return n.share();
    }
    let found = from_here(alloc, parts, known, scope, around)?;
    Shared::of(alloc, found)
}

/// Returns the last atoms of the element before dots, as they appear in the dots' condition from this scope, or `None`
/// if the dots know of no such atoms. Costs what `from_scope` says.
pub fn before_dots(
    alloc: Global,
    parts: &mut Parts,
    before: &Option<Shared<LastAtoms>>,
    scope: &Scope,
) -> Result<Option<usize>, NoMemory>
    requires { before_below (length parts.old) before.now ≡ true }
    ensures made { IfOk result (λ found. MakesSome parts.old parts.new found
        (before_at (plains parts.old) before.now scope.now)) }
{
    match before {
        None => Ok(None),
        Some(n) => from_scope(alloc, parts, n.get(), scope),
    }
}
