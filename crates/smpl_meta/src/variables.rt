// Declared variables, found by name.
ghost use Rattle.std.specs.Prelude.{◌≡◌, IfOk};
ghost use Rattle.std.specs.Option.{option_copied};
ghost use Rattle.smpl_meta.specs.Index.{names_of};
ghost use Rattle.smpl_meta.specs.Known as known;

use crate::index::NameTable;
use c_terms::NoMemory;
use smpl_patch::VarDecl;
use sqlite_items::at;
use std::alloc::Global;
use std::marker::Model;

/// Returns the names of variables. Linear.
pub fn names_of(alloc: Global, vars: &[VarDecl]) -> Result<NameTable, NoMemory>
    ensures { IfOk result (λ names. names ≡ names_of vars.now) }
{
    let mut names = NameTable::new(alloc);
    for d in vars {
        names = names.with(alloc, d.var.name.copy(alloc)?)?;
    }
    Ok(names)
}

/// Returns the first variable with this name, if there is one. Takes one look-up.
pub fn var_by<'a>(vars: &'a [VarDecl], names: &NameTable, name: &[u8]) -> Option<&'a VarDecl>
    requires { names.now ≡ names_of vars.now }
    ensures { option_copied result ≡ known.var_named name.now vars.now }
{
    match names.place(name) {
        None => None,
        Some(i) => at(vars, i),
    }
}

/// Declared variables. One look-up finds the first with a given name.
#[derive(Drop)]
pub struct VarTable<'a> {
    vars: &'a [VarDecl],
    names: NameTable,
}

impl<'a> Model for VarTable<'a> {
    ghost use Rattle.std.specs.Prelude.{List, ◌≡◌};
    ghost use Rattle.smpl_patch.specs.declared.pattern.VarDecl.{VarDecl as Variable};
    ghost use Rattle.smpl_meta.specs.Index.{names_of};
    ghost use Rattle.std.specs.Coded.{codes};
    ghost use Rattle.c_types.specs.contracts.ty.Ty as ty;

    ghost Value = { List Variable };

    ghost coded = { Prim.hlevel (codes, ty.the_row.coded) };

    ghost view = { λ table. table.vars.now };

    ghost invariant = { λ table. table.names ≡ names_of table.vars.now };
}

impl<'a> VarTable<'a> {
    /// Returns a table of the variables. Linear. Fails only when out of memory.
    pub fn of(alloc: Global, vars: &'a [VarDecl]) -> Result<VarTable<'a>, NoMemory>
        ensures { IfOk result (λ table. table ≡ vars.now) }
    {
        let names = names_of(alloc, vars)?;
        Ok(VarTable { vars, names })
    }

    /// Returns the first variable with this name, if there is one. Makes one look-up and takes no memory.
    pub fn find(&self, name: &[u8]) -> Option<&'a VarDecl>
        ensures { option_copied result ≡ known.var_named name.now self.now }
    {
        var_by(self.vars, &self.names, name)
    }
}
