// Atoms and braces with their quantifiers, and the variables of blocks.
ghost use Rattle.std.specs.Prelude.{◌≡◌, IfOk};
ghost use Rattle.ctl_formula.specs.Plain as plain;
ghost use Rattle.ctl_table.specs.Table as table;
ghost use Rattle.ctl_formula.specs.Tables.{Makes};
ghost use Rattle.ctl_table.specs.Settings.{setting_at};

use crate::setting::Setting;
use crate::wrap::exists_all;
use c_terms::{NoMemory, Text};
use ctl_formula::{Node, Parts};
use pattern_vars::at_atom;
use smpl_patch::Pattern;
use smpl_terms::Var;
use std::alloc::Global;

/// Returns the part for an atom under the quantifiers of those of the variables that occur in it.
pub fn own_atom(
    alloc: Global,
    parts: &mut Parts,
    m: &Setting,
    vars: &[Var],
    p: &Pattern,
) -> Result<usize, NoMemory>
    ensures made { IfOk result (λ i. Makes parts.old parts.new i
        (table.own (setting_at m.now) vars.now p.now (plain.Atom p.now))) }
{
    let here = at_atom(alloc, &m.reader, p, vars)?;
    let f = parts.push(Node::Atom(p.copy(alloc)?))?;
    exists_all(alloc, parts, here.as_slice(), f)
}

pub fn own_open(
    alloc: Global,
    parts: &mut Parts,
    m: &Setting,
    vars: &[Var],
    p: &Pattern,
    b: &Var,
) -> Result<usize, NoMemory>
    ensures made { IfOk result (λ i. Makes parts.old parts.new i
        (table.own (setting_at m.now) vars.now p.now (plain.BraceOpen p.now b.now))) }
{
    let here = at_atom(alloc, &m.reader, p, vars)?;
    let f = parts.push(Node::BraceOpen(p.copy(alloc)?, b.copy(alloc)?))?;
    exists_all(alloc, parts, here.as_slice(), f)
}

pub fn own_close(
    alloc: Global,
    parts: &mut Parts,
    m: &Setting,
    vars: &[Var],
    p: &Pattern,
    b: &Var,
) -> Result<usize, NoMemory>
    ensures made { IfOk result (λ i. Makes parts.old parts.new i
        (table.own (setting_at m.now) vars.now p.now (plain.BraceClose p.now b.now))) }
{
    let here = at_atom(alloc, &m.reader, p, vars)?;
    let f = parts.push(Node::BraceClose(p.copy(alloc)?, b.copy(alloc)?))?;
    exists_all(alloc, parts, here.as_slice(), f)
}

/// Returns the variable of a block. Takes one look-up.
pub fn hidden(alloc: Global, m: &Setting, o: &Pattern) -> Result<Var, NoMemory>
    ensures { IfOk result (λ v. v ≡ table.hidden (setting_at m.now) o.now) }
{
    let name = format!(in alloc; "{{{}", m.blocks.number_of(o.atom))?;
    Ok(Var {
        rule: 0,
        name: Text::from_bytes(alloc, name.as_bytes())?,
    })
}
