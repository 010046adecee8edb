// The variables that a rule takes from earlier ones.
ghost use Rattle.std.specs.Prelude.{◌≡◌, ◌++◌, IfOk};
ghost use Rattle.rule_envs.specs.Inherited as spec;

use c_terms::NoMemory;
use smpl_patch::{Rule, VarDecl};
use smpl_terms::Var;
use sqlite_items::Items;
use std::alloc::Global;

fn with_all(alloc: Global, vars: Items<Var>, more: &[Var]) -> Result<Items<Var>, NoMemory>
    ensures { IfOk result (λ now. now ≡ vars ++ more.now) }
{
    let mut vars = vars;
    for x in more {
        vars.push(x.copy(alloc)?)?;
    }
    Ok(vars)
}

fn with_inherited(alloc: Global, vars: Items<Var>, d: &VarDecl) -> Result<Items<Var>, NoMemory>
    ensures { IfOk result (λ now. now ≡ vars ++ spec.inherited_by d.now) }
{
    let mut vars = vars;
    if d.inherited {
        vars.push(d.var.copy(alloc)?)?;
    }
    with_all(alloc, vars, d.not_places.as_slice())
}

/// Returns the inherited variables of a rule, in the order of their declarations: those that are declared as inherited, and the
/// positions after `!=`. Linear in the declarations.
pub fn inherited_of(alloc: Global, rule: &Rule) -> Result<Items<Var>, NoMemory>
    ensures vars { IfOk result (λ vars. vars ≡ spec.inherited_of rule.now) }
{
    let mut vars = Items::new(alloc);
    for d in rule.vars.as_slice() {
        vars = with_inherited(alloc, vars, d)?;
    }
    Ok(vars)
}
