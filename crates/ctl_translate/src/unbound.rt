// The variables of a rule that may stay unbound in its formula.
ghost use Rattle.std.specs.Prelude.{◌≡◌, ◌<◌, ◌&&◌, not, true, if◌then◌else◌, length, Some, IfOk};
ghost use Rattle.smpl_terms.specs.declared.var.Var.{Var as Variable};
ghost use Rattle.smpl_patch.specs.Patterns as patterns;
ghost use Rattle.pattern_vars.specs.Reads.{has, is_declared};
ghost use Rattle.ctl_formula.specs.Tables.{at, plains};
ghost use Rattle.ctl_translate.specs.declared.ctl_bound.masks.Binds.{Binds as WhenFlags};
ghost use Rattle.ctl_translate.specs.CtlBound.Binding.{binds_at};
ghost use Rattle.ctl_translate.specs.CtlBound.Saying.{binds_in};
ghost use Rattle.ctl_translate.specs.Rules as rules;

use crate::ctl_bound::{Bindings, Binds, bindings_of};
use crate::rule::{declared, exported};
use c_terms::NoMemory;
use ctl_formula::Parts;
use pattern_vars::VarSet;
use smpl_patch::{Rule, VarDecl};
use smpl_terms::Var;
use std::alloc::Global;

/// Returns what the rule's formula says about each of the rule's variables.
fn bindings(alloc: Global, parts: &Parts, root: usize, rule: &Rule) -> Result<Bindings, NoMemory>
    requires within { root < length parts.now }
    requires root { at (plains parts.now) root ≡ rules.formula_of rule.now }
    ensures { IfOk result (λ found. (x : Variable) → is_declared rule.now.vars x ≡ true → binds_in found x
        ≡ Some (binds_at (patterns.sure rule.now.vars rule.now.tokens) x (rules.formula_of rule.now))) }
{
    let decls = declared(alloc, rule)?;
    let found = bindings_of(alloc, parts, &decls, rule.tokens.as_slice(), root)?;
    Ok(found)
}

/// Whether a variable about which a rule's formula says this may stay unbound: an exported one if the formula can hold
/// without binding it, any other one if some quantifier of it isn't guarded.
fn is_open(binds: Binds, exported: bool) -> bool
    ensures { result ≡ (if exported then not binds.holding else not binds.guarded) }
{
    if exported {
        !binds.holding
    } else {
        !binds.guarded
    }
}

/// Whether the variable may stay unbound. Takes two look-ups.
fn is_unbound(
    alloc: Global,
    exports: &VarSet,
    found: &Bindings,
    d: &VarDecl,
) -> Result<bool, NoMemory>
    ensures { IfOk result (λ unbound. (b : WhenFlags) → binds_in found.now d.now.var ≡ Some b → unbound
        ≡ (not d.now.inherited && (if has exports.now d.now.var then not b.holding else not b.guarded))) }
{
    if d.inherited {
        return Ok(false);
    }
    let exported = exports.has(alloc, &d.var)?;
    match found.of(alloc, &d.var)? {
        Some(binds) => Ok(is_open(binds, exported)),
        None => Ok(false),
    }
}

/// Returns the first declared variable that may stay unbound, given what the formula says about each.
fn first_unbound_by(
    alloc: Global,
    rule: &Rule,
    exports: &VarSet,
    found: &Bindings,
) -> Result<Option<Var>, NoMemory>
    requires exports { (x : Variable) → has exports.now x ≡ rules.is_exported rule.now x }
    requires found { (x : Variable) → is_declared rule.now.vars x ≡ true → binds_in found.now x
        ≡ Some (binds_at (patterns.sure rule.now.vars rule.now.tokens) x (rules.formula_of rule.now)) }
    ensures { IfOk result (λ first. first ≡ rules.first_unbound rule.now) }
{
    for d in rule.vars.as_slice() {
        if is_unbound(alloc, exports, found, d)? {
            return Ok(Some(d.var.copy(alloc)?));
        }
    }
    Ok(None)
}

/// Returns the first declared variable that may stay unbound. Takes one pass over the table for each 64 variables, and
/// one reading of its patterns.
pub fn first_unbound(
    alloc: Global,
    parts: &Parts,
    root: usize,
    rule: &Rule,
) -> Result<Option<Var>, NoMemory>
    requires within { root < length parts.now }
    requires root { at (plains parts.now) root ≡ rules.formula_of rule.now }
    ensures { IfOk result (λ found. found ≡ rules.first_unbound rule.now) }
{
    let found = bindings(alloc, parts, root, rule)?;
    let exports = exported(alloc, rule)?;
    first_unbound_by(alloc, rule, &exports, &found)
}
