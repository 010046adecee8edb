// Declarations, found by one look-up.
ghost use Rattle.std.specs.Prelude.{◌≡◌, ◌&&◌, not, cond, ℕ, List, map, Some, slice_get, IfOk, OnOk};
ghost use Rattle.std.specs.Option.{option_copied};
ghost use Rattle.c_terms.specs.Same.{same_bytes};
ghost use Rattle.smpl_terms.specs.declared.var.Var.{Var as Variable};
ghost use Rattle.smpl_patch.specs.Patterns.{declared_as, is_position_kind};
ghost use Rattle.pattern_vars.specs.Reads.{has, is_declared};
ghost use Rattle.pattern_vars.specs.Index.{number_in, Finds};

use crate::VarSet;
use c_terms::NoMemory;
use indexmap::IndexMap;
use smpl_patch::{VarDecl, VarKind};
use sqlite_items::Items;
use std::alloc::Global;
use std::marker::Model;

/// A rule's declarations, with the number of the one that declares each metavariable's name. Contracts see the list.
#[derive(Drop)]
pub struct Decls {
    decls: Items<VarDecl>,
    numbers: IndexMap<Vec<u8>, usize>,
}

impl Model for Decls {
    ghost use Rattle.std.specs.Prelude.{List, map};
    ghost use Rattle.smpl_patch.specs.declared.pattern.VarDecl.{VarDecl as Declaration};
    ghost use Rattle.pattern_vars.specs.Index.{Finds};
    ghost use Rattle.std.specs.Coded.{codes};
    ghost use Rattle.c_types.specs.contracts.ty.Ty as ty;

    ghost Value = { List Declaration };

    ghost coded = { Prim.hlevel (codes, ty.the_row.coded) };

    ghost view = { λ d. d.decls };

    ghost invariant = { λ d. Finds (map (λ e. (e.0.items, e.1)) d.numbers.entries) d.decls d.decls };
}

/// Gives this number to the declaration's name, unless it is a position.
fn put_number(
    alloc: Global,
    d: &VarDecl,
    i: usize,
    numbers: &mut IndexMap<Vec<u8>, usize>,
) -> Result<(), NoMemory>
    ensures { OnOk result ((name : List ℕ) → number_in (map (λ e. (e.0.items, e.1)) numbers.new.entries) name
        ≡ cond (not (is_position_kind d.now.kind) && same_bytes d.now.var.name name) (Some i)
        (number_in (map (λ e. (e.0.items, e.1)) numbers.old.entries) name)) }
{
    match d.kind {
        VarKind::Position => Ok(()),
        VarKind::Meta(_) => {
            let key = Vec::from_slice(alloc, d.var.name.as_bytes())?;
            numbers.insert(key, i)?;
            Ok(())
        }
    }
}

/// Returns the number of the first declaration of each metavariable's name.
fn numbers_of(alloc: Global, decls: &[VarDecl]) -> Result<IndexMap<Vec<u8>, usize>, NoMemory>
    ensures { IfOk result (λ numbers. Finds (map (λ e. (e.0.items, e.1)) numbers.entries) decls.now decls.now) }
{
    let mut numbers = IndexMap::new(alloc);
    let mut i = decls.len();
    while i > 0 {
        i -= 1;
        put_number(alloc, &decls[i], i, &mut numbers)?;
    }
    Ok(numbers)
}

/// Returns the declaration with this number.
fn numbered(decls: &[VarDecl], i: usize) -> Option<&VarDecl>
    ensures { option_copied result ≡ slice_get decls.now i }
{
    decls.get(i)
}

impl Decls {
    /// Returns the declarations, ready for look-ups. Linear in their names if no hashes collide.
    pub fn of(alloc: Global, decls: Items<VarDecl>) -> Result<Decls, NoMemory>
        ensures { IfOk result (λ known. known ≡ decls) }
    {
        let numbers = numbers_of(alloc, decls.as_slice())?;
        Ok(Decls { decls, numbers })
    }

    /// Returns the declarations, in their order. Takes no memory.
    pub fn as_slice(&self) -> &[VarDecl]
        ensures { result.now ≡ self.now }
    {
        self.decls.as_slice()
    }

    /// Returns what a metavariable of this name is declared as. Takes one look-up, linear in the name, and no memory.
    pub fn declared(&self, name: &[u8]) -> Option<&VarDecl>
        ensures { option_copied result ≡ declared_as self.now name.now }
    {
        match self.numbers.get(name) {
            Some(i) => numbered(self.decls.as_slice(), *i),
            None => None,
        }
    }
}

/// Returns the variables of the declarations, as a set. Takes one look-up for each declaration, linear in its name.
pub fn declared_vars(alloc: Global, decls: &Decls) -> Result<VarSet, NoMemory>
    ensures { IfOk result (λ vars. (x : Variable) → has vars x ≡ is_declared decls.now x) }
{
    let mut vars = VarSet::new(alloc);
    for d in decls.as_slice() {
        vars.put(alloc, &d.var)?;
    }
    Ok(vars)
}
