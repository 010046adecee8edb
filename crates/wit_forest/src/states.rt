// The states that are still to be explored, each once.
ghost use Rattle.std.specs.Prelude.{◌≡◌, ◌<◌, true, false, length, slice_get, Some, IfOk, [], ◌∷◌, ◌++◌, if◌then◌else◌, fold};
ghost use Rattle.smpl_terms.specs.Environments.{total};
ghost use Rattle.wit_forest.specs.Gathered.{Covered, IsAdded};
ghost use Rattle.wit_forest.specs.States.{with_state, value_input, env_input};

use c_terms::NoMemory;
use env_parts::same_env;
use indexmap::IndexSet;
use smpl_terms::{Env, Value};
use std::alloc::Global;
use std::hash::{Hash, Hasher};
use std::marker::Model;

/// A part of the formula, by its number, at a node under an environment.
#[derive(Drop)]
pub struct State {
    pub part: usize,
    pub node: u32,
    pub env: Env,
}

impl PartialEq for State {
    ghost use Rattle.std.specs.Cmp.{partial_equiv_from_equiv};
    ghost use Rattle.wit_forest.specs.States.{same_state};
    ghost use Rattle.wit_forest.specs.StateLaws.{state_equiv};

    ghost eq = { same_state };

    ghost laws = { partial_equiv_from_equiv state_equiv };

    fn eq(&self, other: &State) -> bool {
        self.part == other.part && self.node == other.node && same_env(&self.env, &other.env)
    }
}

impl Eq for State {
    ghost use Rattle.wit_forest.specs.StateLaws.{state_equiv};

    ghost laws = { state_equiv };
}

impl Hash for State {
    ghost use Rattle.wit_forest.specs.States.{state_input};
    ghost use Rattle.wit_forest.specs.StateLaws.{states_feed_alike};

    ghost hash_input = { state_input };

    ghost respects_eq = { states_feed_alike.fed };

    fn hash<H: Hasher>(&self, state: &mut H) {
        self.part.hash(state);
        self.node.hash(state);
        feed_env(&self.env, state);
    }
}

/// Feeds the places in an environment, and nothing of its terms, to the hasher.
fn feed_value<H: Hasher>(v: &Value, state: &mut H)
    ensures { state.new ≡ fold H.write state.old (value_input v.now) }
{
    if let Value::Place(id) = v {
        id.hash(state);
    }
}

fn feed_env<H: Hasher>(env: &Env, state: &mut H)
    ensures { state.new ≡ fold H.write state.old (env_input env.now) }
{
    let pairs = env.pairs();
    for i in 0..pairs.len() {
        feed_value(&pairs[i].1, state);
    }
}

/// States in the order in which they were added, each once. Contracts see the list.
#[derive(Drop)]
pub struct States {
    items: IndexSet<State>,
}

impl Model for States {
    ghost use Rattle.std.specs.Coded.{codes};
    ghost use Rattle.std.specs.Prelude.{List};
    ghost use Rattle.c_terms.specs.contracts.tree.Tree as tree;
    ghost use Rattle.wit_forest.specs.declared.states.State.{State as One};

    ghost Value = { List One };

    ghost coded = { Prim.hlevel (codes, tree.the_row.coded) };

    ghost view = { λ a. a.items.keys };
}

impl States {
    pub fn new(alloc: Global) -> States
        ensures { result ≡ [] }
    {
        States {
            items: IndexSet::new(alloc),
        }
    }

    pub fn len(&self) -> usize
        ensures { result ≡ length self.now }
    {
        self.items.len()
    }

    pub fn get(&self, i: usize) -> &State
        requires { i < length self.now }
        ensures { slice_get self.now i ≡ Some result.now }
    {
        &self.items.as_slice()[i]
    }

    fn put(&mut self, one: State) -> Result<(), NoMemory>
        ensures states { IfOk result (λ _. self.new ≡ with_state self.old one) }
    {
        self.items.insert(one)?;
        Ok(())
    }

    /// Appends a state, unless it is already in the list.
    pub fn add(&mut self, alloc: Global, part: usize, node: u32, env: &Env) -> Result<(), NoMemory>
        ensures states { IfOk result (λ _. self.new ≡ with_state self.old (record { part = part; node = node; env = env.now })) }
        ensures covered { IfOk result (λ _. Covered self.new part node (total env.now)) }
        ensures added { IfOk result (λ _. IsAdded self.old self.new part node env.now) }
    {
        let env = env.copy(alloc)?;
        self.put(State { part, node, env })?;
        Ok(())
    }
}
