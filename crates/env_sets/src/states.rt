// A set for each subformula and node.
ghost use Rattle.std.specs.Prelude.{◌≡◌, ◌<◌, ℕ, List, [], length, slice_index_or, IfOk};
ghost use Rattle.env_sets.specs.States.{IsEven, set_at};

use crate::sets::EnvSet;
use c_terms::NoMemory;
use smpl_terms::SharedList;
use std::alloc::Global;
use std::marker::Model;

/// The sets of one subformula, by node. Copies share them.
#[derive(Drop)]
pub struct StateRow {
    sets: SharedList<EnvSet>,
}

impl Model for StateRow {
    ghost use Rattle.std.specs.Coded.{codes};
    ghost use Rattle.c_terms.specs.contracts.tree.Tree as tree;
    ghost use Rattle.std.specs.Prelude.{List};
    ghost use Rattle.smpl_terms.specs.declared.var.Var.{Var};
    ghost use Rattle.env_sets.specs.declared.bounds.Bound.{Bound};

    ghost Value = { List (List (List (Var × Bound))) };

    ghost coded = { Prim.hlevel (codes, tree.the_row.coded) };

    ghost view = { λ a. a.sets };
}

impl StateRow {
    /// Makes a row of these sets, which are moved.
    pub fn of(alloc: Global, sets: Vec<EnvSet>) -> Result<StateRow, NoMemory>
        ensures sets { IfOk result (λ r. r ≡ sets.items) }
    {
        let sets = SharedList::of(alloc, sets)?;
        Ok(StateRow { sets })
    }

    /// Returns an equal row, ids included. It shares the sets, and takes no memory.
    pub fn copy(&self) -> Result<StateRow, NoMemory>
        ensures same { IfOk result (λ r. r ≡ self.now) }
    {
        let sets = self.sets.share()?;
        Ok(StateRow { sets })
    }

    /// Returns the sets, by node. Takes no memory.
    pub fn as_slice(&self) -> &[EnvSet]
        ensures sets { result.now ≡ self.now }
    {
        self.sets.as_slice()
    }
}

/// A set for each subformula and node, by their indices. Contracts see the rows, which have the same length.
#[derive(Drop)]
pub struct StateSets {
    rows: Vec<StateRow>,
}

impl Model for StateSets {
    ghost use Rattle.std.specs.Coded.{codes};
    ghost use Rattle.c_terms.specs.contracts.tree.Tree as tree;
    ghost use Rattle.std.specs.Prelude.{List};
    ghost use Rattle.smpl_terms.specs.declared.var.Var.{Var};
    ghost use Rattle.env_sets.specs.declared.bounds.Bound.{Bound};

    ghost Value = { List (List (List (List (Var × Bound)))) };

    ghost coded = { Prim.hlevel (codes, tree.the_row.coded) };

    ghost use Rattle.env_sets.specs.States.{IsEven};

    ghost view = { λ a. a.rows.items };

    ghost invariant = { λ a. IsEven a.rows.items };
}

impl StateSets {
    /// Makes the sets of these rows, by subformula and then by node. Takes no memory.
    pub fn new(rows: Vec<StateRow>) -> StateSets
        requires even { IsEven rows.items }
        ensures rows { result ≡ rows.items }
    {
        StateSets { rows }
    }

    /// Returns the set of a subformula at a node. Takes no memory.
    pub fn at(&self, part: usize, node: u32) -> &EnvSet
        requires part { part < length self.now }
        requires node { node < length (slice_index_or self.now part []) }
        ensures set { result.now ≡ set_at self.now part node }
    {
        let row = &self.rows[part];
        &row.as_slice()[node as usize]
    }
}
