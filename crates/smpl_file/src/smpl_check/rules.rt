// The first fault of a patch's rules.
ghost use Rattle.std.specs.Prelude.{◌≡◌, ◌<◌, ◌^◌, length, None, OnOk, IfErr};
ghost use Rattle.std.specs.Option.{option_copied};
ghost use Rattle.smpl_file.specs.SmplCheck.Checks.{first_fault, fault_of_rule, IsFirst, IsFaultOf};
ghost use Rattle.smpl_file.specs.SmplCheck.Known as known;

use crate::smpl_check::plus::{in_plus_code, is_unbound_in_plus};
use ctl_translate::{FormulaFault, formula_of, standing_outside_whens};
use smpl_patch::{Patch, PatchFault, Rule, VarDecl};
use smpl_terms::{Var, same_var};
use std::alloc::Global;

/// Whether this is the rule's own declaration of the variable.
fn is_own_of(x: Option<&Var>, d: &VarDecl) -> bool
    ensures { result ≡ known.is_own_of (option_copied x.entry) d.now }
{
    match x {
        None => false,
        Some(x) => !d.inherited && same_var(&d.var, x),
    }
}

/// Fails with the first fault of a rule's variables, given the first that may stay unbound.
fn check_vars(alloc: Global, rule: &Rule, unbound: Option<&Var>) -> Result<(), PatchFault>
    ensures accepted { OnOk result
        (known.fault_by rule.now (option_copied unbound.entry) rule.now.vars ≡ None) }
    ensures fault { IfErr result (λ fault. IsFirst
        (known.fault_by rule.now (option_copied unbound.entry) rule.now.vars) fault) }
{
    let plus = in_plus_code(alloc, rule)?;
    let pattern = standing_outside_whens(alloc, rule)?;
    for d in rule.vars.as_slice() {
        if is_unbound_in_plus(alloc, rule, &plus, &pattern, d)? {
            return Err(PatchFault::UnboundInPlus(d.var.copy(alloc)?));
        }
        if is_own_of(unbound, d) {
            return Err(PatchFault::MayStayUnbound(d.var.copy(alloc)?));
        }
    }
    Ok(())
}

/// Fails with the first fault of the rule, which has this number.
fn check_rule(alloc: Global, n: u32, rule: &Rule) -> Result<(), PatchFault>
    ensures accepted { OnOk result (fault_of_rule n rule.now ≡ None) }
    ensures fault { IfErr result (λ fault. IsFirst (fault_of_rule n rule.now) fault) }
{
    match formula_of(alloc, rule) {
        Ok(_) => check_vars(alloc, rule, None),
        Err(FormulaFault::TooLarge) => Err(PatchFault::TooLarge(n)),
        Err(FormulaFault::Unbound(x)) => check_vars(alloc, rule, Some(&x)),
        Err(FormulaFault::NoMemory) => Err(PatchFault::NoMemory),
    }
}

/// Checks that each rule of a patch has a formula that may be used, and that each of its variables has a value where it is
/// needed.
///
/// Rules are checked in order. [`PatchFault::TooLarge`], with the rule's number counted from 0, comes first: the rule's
/// formula has more than 100,000 subformulas, or one inside more than 4,000 others. Otherwise the rule's variables are
/// checked in declared order, each that isn't inherited for two faults. [`PatchFault::UnboundInPlus`]: it is in plus
/// code and nowhere in the pattern outside of `when` code. Then [`PatchFault::MayStayUnbound`]: it has no value in some
/// way in which the formula under one of its quantifiers can hold, or, if a later rule inherits it, in which the whole
/// formula can. [`PatchFault::NoMemory`] means out of memory. There are no other faults. Patterns are read in their
/// first form.
///
/// Makes each rule's formula once, and is otherwise linear in the rule if no hashes collide. Uses the stack of
/// [`formula_of`]. The faults and their order are this project's own.
pub fn check(alloc: Global, patch: &Patch) -> Result<(), PatchFault>
    requires { length patch.now.rules < 2 ^ 32 }
    ensures accepted { OnOk result (first_fault patch.now ≡ None) }
    ensures fault { IfErr result (λ fault. IsFaultOf patch.now fault) }
{
    for (n, rule) in patch.rules.as_slice().iter().enumerate() {
        check_rule(alloc, n as u32, rule)?;
    }
    Ok(())
}
