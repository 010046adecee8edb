// Parts of environments.
ghost use Rattle.std.specs.Prelude.{◌≡◌, ◌&&◌, IfOk};
ghost use Rattle.std.specs.List.{list_all};
ghost use Rattle.smpl_terms.specs.Vars.{same_var};
ghost use Rattle.smpl_terms.specs.Values.{same};
ghost use Rattle.env_parts.specs.Parts as spec;

use c_terms::NoMemory;
use smpl_terms::{Env, Value, Var, same_value, same_var};
use std::alloc::Global;

/// Whether `x` is one of these variables. Linear, and takes no memory.
pub fn is_among(vars: &[Var], x: &Var) -> bool
    ensures value { result ≡ spec.is_among vars.now x.now }
{
    vars.iter().any(|y| same_var(y, x))
}

/// Whether the variable of each pair is one of these.
fn are_among(pairs: &[(Var, Value)], vars: &[Var]) -> bool
    ensures { result ≡ list_all (λ p. spec.is_among vars.now p.0) pairs.now }
{
    pairs.iter().all(|p| is_among(vars, &p.0))
}

/// Returns the pairs of these variables. Shares the environment if it has no others; otherwise it copies each pair that it
/// keeps once for each pair that it keeps after it.
pub fn restricted(alloc: Global, env: &Env, vars: &[Var]) -> Result<Env, NoMemory>
    ensures pairs { IfOk result (λ r. r ≡ spec.restricted vars.now env.now) }
{
    let pairs = env.pairs();
    if are_among(pairs, vars) {
        return env.copy(alloc);
    }
    let mut part = Env::empty(alloc);
    for p in pairs {
        if is_among(vars, &p.0) {
            part = part.with(alloc, &p.0, &p.1)?;
        }
    }
    Ok(part)
}

/// Returns the environment with one more pair, or unchanged if it has a value of the variable.
fn adopted(alloc: Global, env: Env, x: &Var, value: &Value) -> Result<Env, NoMemory>
    ensures { IfOk result (λ r. r ≡ spec.adopted env (x.now, value.now)) }
{
    if env.has(x) {
        return Ok(env);
    }
    env.with(alloc, x, value)
}

/// Returns the environment with those pairs of `more` whose variables it has no value of. Copies it once for each of them.
pub fn joined(alloc: Global, env: &Env, more: &Env) -> Result<Env, NoMemory>
    ensures pairs { IfOk result (λ r. r ≡ spec.joined env.now more.now) }
{
    let mut whole = env.copy(alloc)?;
    for p in more.pairs() {
        whole = adopted(alloc, whole, &p.0, &p.1)?;
    }
    Ok(whole)
}

fn same_pair(a: &(Var, Value), b: &(Var, Value)) -> bool
    ensures { result ≡ (same_var a.now.0 b.now.0 && same a.now.1 b.now.1) }
{
    same_var(&a.0, &b.0) && same_value(&a.1, &b.1)
}

fn same_pairs(a: &[(Var, Value)], b: &[(Var, Value)]) -> bool
    ensures { result ≡ spec.same_env a.now b.now }
{
    if a.len() != b.len() {
        return false;
    }
    for i in 0..a.len() {
        if !same_pair(&a[i], &b[i]) {
            return false;
        }
    }
    true
}

/// Whether both have the same values of the same variables, ids aside. Stops at the first difference, and takes no memory.
pub fn same_env(a: &Env, b: &Env) -> bool
    ensures value { result ≡ spec.same_env a.now b.now }
{
    same_pairs(a.pairs(), b.pairs())
}
