// The rows of the nodes inside a block and of those outside it, computed in one pass over the nodes in text order.
//
//       0 head   1 `{` 7   2 a();   3 `{` 9   4 b();   5 `}` 9   6 c();   7 `}` 7   8 exit
//     inside       7         7        7, 9      7, 9     7         7
//     outside   all, but 7 from node 1 to node 7, and 9 from node 3 to node 5
ghost use Rattle.std.specs.Prelude.{◌≡◌, ℕ, ◌<◌, Bool, true, not, ◌&&◌, ◌||◌, IfOk};
ghost use Rattle.cfg_build.specs.CfgGraph.Flow.{count_of};
ghost use Rattle.smpl_terms.specs.declared.var.Var.{Var};
ghost use Rattle.smpl_terms.specs.declared.value.Value.TheVariants.{Place};
ghost use Rattle.smpl_terms.specs.Values.{same};
ghost use Rattle.smpl_terms.specs.Environments.{Environment};
ghost use Rattle.env_sets.specs.Sets.{set_denotes, set_vars};
ghost use Rattle.ctl_fixpoint.specs.CtlHolds.Holding.{at_node, is_brace, in_block, off_block};
ghost use Rattle.ctl_fixpoint.specs.CtlHolds.Holding as spec;
ghost use Rattle.ctl_fixpoint.specs.Steps.{row_vars, Gives};

use crate::point::{is_close, is_open};
use c_terms::NoMemory;
use cfg_build::Graph;
use env_sets::{Bound, EnvSet, Values, join, meet};
use smpl_terms::{Value, Var};
use std::alloc::Global;

/// Returns the set of the environments in which the variable's value is the place.
fn at_place(alloc: Global, b: &Var, place: u64) -> Result<EnvSet, NoMemory>
    ensures gives { IfOk result (λ r. (env : Environment) → set_denotes r env ≡ same (Place place) (env b.now)) }
    ensures vars { IfOk result (λ r. (test : Var → Bool) → test b.now ≡ true → set_vars test r ≡ true) }
{
    EnvSet::one(alloc, b, Bound::Is(Value::Place(place)))
}

/// Returns the set of the environments in which the variable's value is anything else.
fn off_place(alloc: Global, b: &Var, place: u64) -> Result<EnvSet, NoMemory>
    ensures gives { IfOk result (λ r. (env : Environment) → set_denotes r env ≡ not (same (Place place) (env b.now))) }
    ensures vars { IfOk result (λ r. (test : Var → Bool) → test b.now ≡ true → set_vars test r ≡ true) }
{
    let mut places = Vec::new(alloc);
    places.push(Value::Place(place))?;
    EnvSet::one(alloc, b, Bound::Not(Values::of(alloc, places)?))
}

/// Returns the places of the blocks that are open after the node, given those that are open before it.
fn open_after(alloc: Global, g: &Graph, b: &Var, before: EnvSet, s: u32) -> Result<EnvSet, NoMemory>
    requires node { s < count_of g.now }
    ensures gives { IfOk result (λ r. (env : Environment) → set_denotes r env ≡ at_node g.now s
        (λ l. is_brace spec.is_open (env b.now) l || (not (is_brace spec.is_close (env b.now) l) && set_denotes before env))) }
    ensures vars { IfOk result (λ r. (test : Var → Bool) → test b.now ≡ true → set_vars test before ≡ true
        → set_vars test r ≡ true) }
{
    let label = g.label(s);
    if is_open(label.kind) {
        return Ok(join(alloc, &before, &at_place(alloc, b, label.brace)?)?);
    }
    if is_close(label.kind) {
        return Ok(meet(alloc, &before, &off_place(alloc, b, label.brace)?)?);
    }
    Ok(before)
}

/// Returns the row of the nodes that are inside the block whose `{` is the variable's value. Only a brace makes a new set:
/// the nodes between two braces share one. The cost is one step per node, and at a brace some steps for each enclosing
/// block.
pub fn inside_row(alloc: Global, g: &Graph, b: &Var) -> Result<Vec<EnvSet>, NoMemory>
    ensures gives { IfOk result (λ r. Gives (count_of g.now) r.items (λ s env. in_block g.now (env b.now) s)) }
    ensures vars { IfOk result (λ r. (test : Var → Bool) → test b.now ≡ true → row_vars test r.items ≡ true) }
{
    let mut around = EnvSet::none(alloc);
    let mut sets = Vec::with_capacity(alloc, g.count() as usize)?;
    for s in 0..g.count() {
        around = open_after(alloc, g, b, around, s)?;
        sets.push(around.copy(alloc)?)?;
    }
    Ok(sets)
}

/// Returns the values that are the place of no block open after the node, given those that are the place of none open before
/// it.
fn shut_after(alloc: Global, g: &Graph, b: &Var, shut: EnvSet, s: u32) -> Result<EnvSet, NoMemory>
    requires node { s < count_of g.now }
    ensures gives { IfOk result (λ r. (env : Environment) → set_denotes r env ≡ not (at_node g.now s
        (λ l. is_brace spec.is_open (env b.now) l || (not (is_brace spec.is_close (env b.now) l) && not (set_denotes shut env))))) }
    ensures vars { IfOk result (λ r. (test : Var → Bool) → test b.now ≡ true → set_vars test shut ≡ true
        → set_vars test r ≡ true) }
{
    let label = g.label(s);
    if is_open(label.kind) {
        return Ok(meet(alloc, &shut, &off_place(alloc, b, label.brace)?)?);
    }
    if is_close(label.kind) {
        return Ok(join(alloc, &shut, &at_place(alloc, b, label.brace)?)?);
    }
    Ok(shut)
}

/// Returns the set `shut` without the place of the block whose `}` the node is.
fn without_end(alloc: Global, g: &Graph, b: &Var, shut: &EnvSet, s: u32) -> Result<EnvSet, NoMemory>
    requires node { s < count_of g.now }
    ensures gives { IfOk result (λ r. (env : Environment) → set_denotes r env ≡ at_node g.now s
        (λ l. not (is_brace spec.is_close (env b.now) l) && set_denotes shut.now env)) }
    ensures vars { IfOk result (λ r. (test : Var → Bool) → test b.now ≡ true → set_vars test shut.now ≡ true
        → set_vars test r ≡ true) }
{
    let label = g.label(s);
    if is_close(label.kind) {
        return Ok(meet(alloc, shut, &off_place(alloc, b, label.brace)?)?);
    }
    shut.copy(alloc)
}

/// Returns the row of the nodes that are neither inside that block nor its `}`. The cost is that of [`inside_row`].
pub fn outside_row(alloc: Global, g: &Graph, b: &Var) -> Result<Vec<EnvSet>, NoMemory>
    ensures gives { IfOk result (λ r. Gives (count_of g.now) r.items (λ s env. off_block g.now (env b.now) s)) }
    ensures vars { IfOk result (λ r. (test : Var → Bool) → test b.now ≡ true → row_vars test r.items ≡ true) }
{
    let mut shut = EnvSet::all(alloc)?;
    let mut sets = Vec::with_capacity(alloc, g.count() as usize)?;
    for s in 0..g.count() {
        shut = shut_after(alloc, g, b, shut, s)?;
        sets.push(without_end(alloc, g, b, &shut, s)?)?;
    }
    Ok(sets)
}
