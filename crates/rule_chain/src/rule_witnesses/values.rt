// The values of some variables under which a set has an environment.
ghost use Rattle.std.specs.Prelude.{◌≡◌, ◌<◌, ◌∷◌, [], true, None, List, IfOk, cond, map, length};
ghost use Rattle.std.specs.List.{All, filter, list_any};
ghost use Rattle.smpl_terms.specs.Environments.{total, value_in};
ghost use Rattle.smpl_terms.specs.Values.{same};
ghost use Rattle.smpl_terms.specs.declared.value.Value.{Value as Datum};
ghost use Rattle.env_parts.specs.Parts.{Pairs, bare_env};
ghost use Rattle.env_sets.specs.Rising.{Rise};
ghost use Rattle.env_sets.specs.Sets.{Entries, set_denotes};
ghost use Rattle.wit_forest.specs.WitTrees.Rules as rules;
ghost use Rattle.rule_chain.specs.RuleWitnesses.Choices as spec;
ghost use Rattle.rule_chain.specs.RuleWitnesses.Opened.{AreOpen};
ghost use Rattle.rule_chain.specs.RuleWitnesses.Extended.{Adds, AreExtended, AreChoices};

use c_terms::NoMemory;
use env_sets::{EnvSet, Values, denotes, project};
use smpl_terms::{Env, Value, Var};
use std::alloc::Global;
use wit_forest::values_in;

/// Returns the set with more and more variables left open: set number k has the environments that are in the given set for some
/// values of the last k variables.
fn open_sets(alloc: Global, set: &EnvSet, vars: &[Var]) -> Result<Vec<EnvSet>, NoMemory>
    ensures { IfOk result (λ sets. AreOpen set.now vars.now sets.items) }
{
    let mut sets = Vec::new(alloc);
    sets.push(set.copy(alloc)?)?;
    for i in 0..vars.len() {
        let next = project(alloc, &sets[i], &vars[vars.len() - 1 - i])?;
        sets.push(next)?;
    }
    Ok(sets)
}

/// Returns the values in order, each once.
fn in_order(alloc: Global, values: Vec<Value>) -> Result<Vec<Value>, NoMemory>
    ensures rise { IfOk result (λ r. Rise r.items) }
    ensures values { IfOk result (λ r. (z : Datum) → list_any (λ v. same v z) r.items ≡ list_any (λ v. same v z) values.items) }
{
    let all = Values::of(alloc, values)?;
    let none = Values::of(alloc, Vec::new(alloc))?;
    let joined = none.joined(alloc, &all)?;
    joined.into_vec(alloc)
}

/// Appends the environment extended by each value that the set leaves the variable, in order.
fn put_extended(
    alloc: Global,
    set: &EnvSet,
    x: &Var,
    env: &Env,
    found: &mut Vec<Env>,
) -> Result<(), NoMemory>
    requires absent { value_in env.now x.now ≡ None }
    ensures { IfOk result (λ _. Adds set.now x.now env.now found.old.items found.new.items) }
{
    let values = in_order(alloc, values_in(alloc, set, env, x)?)?;
    for v in &values {
        found.push(env.with(alloc, x, v)?)?;
    }
    Ok(())
}

/// Returns each environment extended by each value that the set leaves the variable.
fn extended(alloc: Global, set: &EnvSet, x: &Var, envs: &[Env]) -> Result<Vec<Env>, NoMemory>
    requires absent { All (λ (e : Pairs). value_in e x.now ≡ None) envs.now }
    ensures { IfOk result (λ more. AreExtended set.now x.now envs.now more.items) }
{
    let mut more = Vec::new(alloc);
    for e in envs {
        put_extended(alloc, set, x, e, &mut more)?;
    }
    Ok(more)
}

/// Returns the environment extended by each choice of values of the variables, one variable after another.
fn all_extended(
    alloc: Global,
    sets: &[EnvSet],
    vars: &[Var],
    env: &Env,
) -> Result<Vec<Env>, NoMemory>
    requires new { spec.AreNew vars.now env.now }
    requires enough { length vars.now < length sets.now }
    ensures { IfOk result (λ envs. (set : Entries) → AreOpen set vars.now sets.now
        → AreChoices set vars.now (env.now ∷ []) envs.items) }
{
    let mut envs = Vec::new(alloc);
    envs.push(env.copy(alloc)?)?;
    for i in 0..vars.len() {
        envs = extended(alloc, &sets[vars.len() - 1 - i], &vars[i], envs.as_slice())?;
    }
    Ok(envs)
}

/// Returns the environment itself if the set has it.
fn itself(alloc: Global, set: &EnvSet, env: &Env) -> Result<Vec<Env>, NoMemory>
    ensures { IfOk result (λ envs. envs.items ≡ cond (set_denotes set.now (total env.now)) (env.now ∷ []) []) }
{
    let mut envs = Vec::new(alloc);
    if denotes(set, env) {
        envs.push(env.copy(alloc)?)?;
    }
    Ok(envs)
}

/// Returns the environment with each choice of values of the variables under which the set has it, in the order of values, with
/// the first variable varying slowest. The set leaves each variable finitely many values.
///
/// A set without entries has none. Without variables the set is only asked whether it has the environment itself. For n
/// variables the set is projected n times, and then traversed once for each environment that is given one more value.
pub fn choices(alloc: Global, set: &EnvSet, vars: &[Var], env: &Env) -> Result<Vec<Env>, NoMemory>
    requires new { spec.AreNew vars.now env.now }
    ensures envs { IfOk result (λ envs. (values : List Datum) → spec.Leaves values vars.now set.now env.now →
        map bare_env envs.items ≡ map bare_env
        (filter (λ e. set_denotes set.now (total e)) (rules.choices (rules.in_order values) vars.now env.now))) }
{
    if set.is_none() {
        return Ok(Vec::new(alloc));
    }
    if vars.is_empty() {
        return itself(alloc, set, env);
    }
    let sets = open_sets(alloc, set, vars)?;
    if !denotes(&sets[vars.len()], env) {
        return Ok(Vec::new(alloc));
    }
    all_extended(alloc, sets.as_slice(), vars, env)
}
