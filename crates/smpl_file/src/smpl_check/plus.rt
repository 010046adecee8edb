// Variables of plus code that the pattern doesn't contain.
ghost use Rattle.std.specs.Prelude.{◌≡◌, ◌||◌, Some, IfOk, OnOk};
ghost use Rattle.std.specs.List.{list_any};
ghost use Rattle.smpl_terms.specs.declared.var.Var.{Var as Variable};
ghost use Rattle.smpl_patch.specs.Patterns as patterns;
ghost use Rattle.pattern_vars.specs.Reads.{has};
ghost use Rattle.smpl_file.specs.SmplCheck.Checks as checks;

use c_terms::NoMemory;
use pattern_vars::{Decls, VarSet, put_block};
use smpl_patch::{PatToken, Rule, VarDecl, copy_decls};
use std::alloc::Global;

/// Adds the variables in the plus code at the token.
fn put_token(
    alloc: Global,
    decls: &Decls,
    token: &PatToken,
    set: &mut VarSet,
) -> Result<(), NoMemory>
    ensures { OnOk result ((y : Variable) → has set.new y
        ≡ (has set.old y || patterns.in_plus decls.now (Some token.now) y)) }
{
    put_block(alloc, decls, &token.before, set)?;
    put_block(alloc, decls, &token.after, set)?;
    Ok(())
}

fn put_tokens(
    alloc: Global,
    decls: &Decls,
    tokens: &[PatToken],
    set: &mut VarSet,
) -> Result<(), NoMemory>
    ensures { OnOk result ((y : Variable) → has set.new y
        ≡ (has set.old y || list_any (λ t. patterns.in_plus decls.now (Some t) y) tokens.now)) }
{
    for token in tokens {
        put_token(alloc, decls, token, set)?;
    }
    Ok(())
}

/// Returns the variables in the rule's plus code.
pub fn in_plus_code(alloc: Global, rule: &Rule) -> Result<VarSet, NoMemory>
    ensures { IfOk result (λ set. (x : Variable) → has set x ≡ checks.in_plus_code rule.now x) }
{
    let decls = copy_decls(alloc, rule.vars.as_slice())?;
    let known = Decls::of(alloc, decls)?;
    let tokens = rule.tokens.as_slice();
    let mut set = VarSet::new(alloc);
    put_tokens(alloc, &known, tokens, &mut set)?;
    Ok(set)
}

/// Whether plus code shows a variable that nothing gives a value, by the variables of plus code and of the pattern.
pub fn is_unbound_in_plus(
    alloc: Global,
    rule: &Rule,
    plus: &VarSet,
    pattern: &VarSet,
    d: &VarDecl,
) -> Result<bool, NoMemory>
    requires plus { (x : Variable) → has plus.now x ≡ checks.in_plus_code rule.now x }
    requires pattern { (x : Variable) → has pattern.now x ≡ checks.in_pattern rule.now x }
    ensures { IfOk result (λ unbound. unbound ≡ checks.is_unbound_in_plus rule.now d.now) }
{
    let shown = plus.has(alloc, &d.var)?;
    let held = pattern.has(alloc, &d.var)?;
    Ok(!d.inherited && shown && !held)
}
