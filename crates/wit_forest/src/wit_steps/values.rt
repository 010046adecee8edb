// The values that a set assigns to a variable.
ghost use Rattle.std.specs.Prelude.{◌≡◌, ◌&&◌, ◌||◌, Bool, true, IfOk, option_copied};
ghost use Rattle.std.specs.List.{list_any};
ghost use Rattle.env_sets.specs.Bounds.{fits};
ghost use Rattle.smpl_terms.specs.declared.value.Value.{Value as Datum};
ghost use Rattle.smpl_terms.specs.Values.{same};
ghost use Rattle.smpl_terms.specs.Vars.{same_var};
ghost use Rattle.smpl_terms.specs.Environments.{total};
ghost use Rattle.env_sets.specs.Blocks.{all_entries};
ghost use Rattle.wit_forest.specs.WitSteps.Choices as spec;

use c_terms::NoMemory;
use env_sets::{Bound, Entry, EnvSet};
use smpl_terms::{Env, SharedList, Value, Var, same_value, same_var};
use std::alloc::Global;

/// Whether the bound allows the variable's value; a variable without a value counts as the place 0.
fn allowed(env: &Env, y: &Var, bound: &Bound) -> bool
    ensures { result ≡ fits (total env.now y.now) bound.now }
{
    match env.get(y) {
        Some(v) => bound.allows(v),
        None => bound.allows(&Value::Place(0)),
    }
}

fn passes(env: &Env, x: &Var, y: &Var, bound: &Bound) -> bool
    ensures { result ≡ (same_var y.now x.now || fits (total env.now y.now) bound.now) }
{
    same_var(y, x) || allowed(env, y, bound)
}

/// Whether the bounds of all variables other than x allow their values.
fn others_allow(pairs: &[(Var, Bound)], env: &Env, x: &Var) -> bool
    ensures { result ≡ spec.others_allow x.now (total env.now) pairs.now }
{
    pairs.iter().all(|p| passes(env, x, &p.0, &p.1))
}

fn as_value(bound: &Bound) -> Option<&Value>
    ensures { option_copied result ≡ spec.as_value bound.now }
{
    match bound {
        Bound::Is(v) => Some(v),
        Bound::Not(_) => None,
    }
}

/// Returns the one value that the variable may have, if there is one.
fn own_value<'a>(pairs: &'a [(Var, Bound)], x: &Var) -> Option<&'a Value>
    ensures { option_copied result ≡ spec.own_value x.now pairs.now }
{
    for p in pairs {
        if same_var(&p.0, x) {
            return as_value(&p.1);
        }
    }
    None
}

/// Whether the last value of the list is the same as `v`.
fn is_last(values: &[Value], v: &Value) -> bool
    ensures { result ≡ true → (z : Datum) → list_any (λ u. same u z) values.now
        ≡ (list_any (λ u. same u z) values.now || same v.now z) }
{
    if values.is_empty() {
        return false;
    }
    same_value(&values[values.len() - 1], v)
}

/// Adds the value, unless it is the same as the last one.
fn put_value(alloc: Global, values: &mut Vec<Value>, v: &Value) -> Result<(), NoMemory>
    ensures { IfOk result (λ _. (z : Datum) → list_any (λ u. same u z) values.new.items
        ≡ (list_any (λ u. same u z) values.old.items || same v.now z)) }
{
    if is_last(values, v) {
        return Ok(());
    }
    values.push(v.copy(alloc)?)?;
    Ok(())
}

/// Adds the value that an entry assigns to the variable, if the entry allows the values of the others.
fn put_choice(
    alloc: Global,
    values: &mut Vec<Value>,
    pairs: &[(Var, Bound)],
    env: &Env,
    x: &Var,
) -> Result<(), NoMemory>
    ensures { IfOk result (λ _. (z : Datum) → list_any (λ u. same u z) values.new.items
        ≡ (list_any (λ u. same u z) values.old.items
        || (spec.others_allow x.now (total env.now) pairs.now && spec.is_same_as z (spec.own_value x.now pairs.now)))) }
{
    if !others_allow(pairs, env, x) {
        return Ok(());
    }
    match own_value(pairs, x) {
        Some(v) => put_value(alloc, values, v),
        None => Ok(()),
    }
}

/// Returns the values that the entries of a set assign to a variable, where the other variables have the values of the
/// environment. Linear in the set; of equal values in a row, only one is returned.
pub fn values_in(alloc: Global, set: &EnvSet, env: &Env, x: &Var) -> Result<Vec<Value>, NoMemory>
    ensures values { IfOk result (λ r. (z : Datum) → list_any (λ u. same u z) r.items
        ≡ spec.chosen x.now (total env.now) set.now z) }
    ensures rise { IfOk result (λ _. spec.AllRise set.now) }
{
    let mut values = Vec::new(alloc);
    let (first, blocks) = set.blocks();
    put_choices(alloc, &mut values, first, env, x)?;
    put_block_choices(alloc, &mut values, blocks, env, x)?;
    Ok(values)
}

/// Adds the values that the entries of these blocks assign to the variable.
fn put_block_choices(
    alloc: Global,
    values: &mut Vec<Value>,
    blocks: &[SharedList<Entry>],
    env: &Env,
    x: &Var,
) -> Result<(), NoMemory>
    ensures values { IfOk result (λ _. (z : Datum) → list_any (λ u. same u z) values.new.items
        ≡ (list_any (λ u. same u z) values.old.items || spec.chosen x.now (total env.now) (all_entries blocks.now) z)) }
    ensures rise { IfOk result (λ _. spec.AllRise (all_entries blocks.now)) }
{
    for block in blocks {
        put_choices(alloc, values, block.as_slice(), env, x)?;
    }
    Ok(())
}

/// Adds the values that these entries assign to the variable.
fn put_choices(
    alloc: Global,
    values: &mut Vec<Value>,
    entries: &[Entry],
    env: &Env,
    x: &Var,
) -> Result<(), NoMemory>
    ensures values { IfOk result (λ _. (z : Datum) → list_any (λ u. same u z) values.new.items
        ≡ (list_any (λ u. same u z) values.old.items || spec.chosen x.now (total env.now) entries.now z)) }
    ensures rise { IfOk result (λ _. spec.AllRise entries.now) }
{
    for e in entries {
        put_choice(alloc, values, e.pairs(), env, x)?;
    }
    Ok(())
}
