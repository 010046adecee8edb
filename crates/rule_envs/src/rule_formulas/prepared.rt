// What is prepared once per patch.
ghost use Rattle.std.specs.Prelude.{◌≡◌, IfOk, IfErr};
ghost use Rattle.ctl_translate.specs.Answers.{IsFaultOf};
ghost use Rattle.rule_envs.specs.RuleFormulas.Prepared as spec;

use crate::inherited_of;
use ctl_formula::Formula;
use ctl_translate::{FormulaFault, formula_of};
use smpl_patch::{Patch, Rule};
use smpl_terms::Var;
use sqlite_items::Items;
use std::alloc::Global;

/// A rule's formula, and the variables that it takes from earlier rules.
#[derive(Drop)]
pub struct PreparedRule {
    pub formula: Formula,
    pub inherited: Items<Var>,
}

/// What each rule of a patch is run by, in order.
#[derive(Drop)]
pub struct Prepared {
    pub rules: Items<PreparedRule>,
}

fn prepared_rule(alloc: Global, rule: &Rule) -> Result<PreparedRule, FormulaFault>
    ensures rule { IfOk result (λ p. spec.IsPrepared rule.now p) }
    ensures fault { IfErr result (λ fault. IsFaultOf rule.now fault) }
{
    let formula = formula_of(alloc, rule)?;
    let inherited = inherited_of(alloc, rule)?;
    Ok(PreparedRule { formula, inherited })
}

/// Returns what the rules of a patch are run by. Costs one [`formula_of`] per rule. Stops at the first rule whose formula is
/// too large or may leave a variable without a value; a patch that is read has no such rule.
pub fn prepare(alloc: Global, patch: &Patch) -> Result<Prepared, FormulaFault>
    ensures rules { IfOk result (λ p. spec.ArePrepared patch.now.rules p.rules) }
    ensures fault { IfErr result (λ fault. spec.IsPrepareFault patch.now.rules fault) }
{
    let mut rules = Items::new(alloc);
    for rule in patch.rules.as_slice() {
        rules.push(prepared_rule(alloc, rule)?)?;
    }
    Ok(Prepared { rules })
}
