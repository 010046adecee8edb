// Environments in which one variable is changed.
ghost use Rattle.std.specs.Prelude.{◌≡◌, ◌++◌, ◌∷◌, [], cond, None, IfOk};
ghost use Rattle.smpl_terms.specs.declared.var.Var.{Var as Name};
ghost use Rattle.smpl_terms.specs.Vars.{same_var};
ghost use Rattle.smpl_terms.specs.Environments.{change, total, value_in};

use c_terms::NoMemory;
use smpl_terms::{Env, Value, Var, same_var};
use std::alloc::Global;

/// Adds a pair, unless its variable is x or already has a value.
fn put_other(alloc: Global, rest: Env, x: &Var, p: &(Var, Value)) -> Result<Env, NoMemory>
    ensures { IfOk result (λ r. (y : Name) → value_in r y
        ≡ cond (same_var p.now.0 x.now) (value_in rest y) (value_in (rest ++ p.now ∷ []) y)) }
{
    if same_var(&p.0, x) {
        return Ok(rest);
    }
    if rest.has(&p.0) {
        return Ok(rest);
    }
    rest.with(alloc, &p.0, &p.1)
}

/// Returns the environment without a variable. Shares the pairs if none of them has the variable.
fn without(alloc: Global, env: &Env, x: &Var) -> Result<Env, NoMemory>
    ensures { IfOk result (λ r. (y : Name) → value_in r y ≡ cond (same_var y x.now) None (value_in env.now y)) }
{
    if !env.has(x) {
        return env.copy(alloc);
    }
    let mut rest = Env::empty(alloc);
    for p in env.pairs() {
        rest = put_other(alloc, rest, x, p)?;
    }
    Ok(rest)
}

/// Returns the environment with another value of a variable. Linear in the pairs if the variable has no value, and quadratic
/// in them otherwise.
pub fn changed(alloc: Global, env: &Env, x: &Var, v: &Value) -> Result<Env, NoMemory>
    ensures value { IfOk result (λ r. (y : Name) → total r y ≡ change (total env.now) x.now v.now y) }
{
    let rest = without(alloc, env, x)?;
    rest.with(alloc, x, v)
}
