// Trees that have been found, sorted when there are many of them.
ghost use Rattle.std.specs.Prelude.{◌≡◌, ◌||◌, ◌<◌, ◌≤◌, IfOk, [], Err, length};
ghost use Rattle.cfg_build.specs.CfgGraph.Flow.{count_of};
ghost use Rattle.smpl_terms.specs.Environments.{total};
ghost use Rattle.smpl_patch.specs.declared.witness.Witness.{Witness as Tree};
ghost use Rattle.wit_forest.specs.WitOrder.Same.{same_witness};
ghost use Rattle.wit_forest.specs.WitOrder.Sizes.{forest_size, most_nodes};
ghost use Rattle.wit_forest.specs.WitOrder.Forests.{has, HaveSame, Rise};
ghost use Rattle.wit_forest.specs.WitSteps.Touches.{own_touches};
ghost use Rattle.wit_forest.specs.Gathered.{HasTooMany};

use crate::fault::ForestFault;
use crate::wit_order::{distinct, within};
use crate::wit_steps::put_own;
use cfg_build::Graph;
use ctl_formula::{Formula, Node};
use smpl_patch::{VarDecl, Witness};
use smpl_terms::Env;
use std::alloc::Global;
use std::marker::Model;
use std::mem;

/// The largest number of nodes that a forest may have.
pub const MOST_NODES: u32 = 1_000_000;

/// Trees that have been found; the same tree may occur several times. Contracts see the list.
///
/// When the trees have more than twice the nodes of the largest forest, they are sorted and repeats are removed. So a tree
/// that is found again takes memory only for a while, and a forest that is too large is reported early.
#[derive(Drop)]
pub struct Found {
    trees: Vec<Witness>,
    /// How many more nodes there may be before the trees are sorted.
    room: u32,
}

impl Model for Found {
    ghost use Rattle.std.specs.Coded.{codes};
    ghost use Rattle.std.specs.Prelude.{List};
    ghost use Rattle.c_terms.specs.contracts.tree.Tree as tree;
    ghost use Rattle.smpl_patch.specs.contracts.witness.Witness as witness;
    ghost use Rattle.smpl_patch.specs.declared.witness.Witness.{Witness as One};

    ghost Value = { List One };

    ghost coded = { Prim.hlevel (codes, tree.the_row.coded, witness.the_row.coded) };

    ghost view = { λ a. a.trees.items };
}

/// Returns the trees in order, each once, if they are not too many.
fn settled(alloc: Global, decls: &[VarDecl], trees: Vec<Witness>) -> Result<Found, ForestFault>
    ensures trees { IfOk result (λ r. HaveSame r trees.items) }
    ensures rise { IfOk result (λ r. Rise decls.now r) }
    ensures few { IfOk result (λ r. forest_size r ≤ most_nodes) }
    ensures too_many { result ≡ Err ForestFault.TooMany → HasTooMany decls.now (has trees.items) }
{
    let trees = distinct(alloc, decls, trees)?;
    match within(&trees, MOST_NODES) {
        Some(left) => Ok(Found {
            trees,
            room: MOST_NODES + left,
        }),
        None => Err(ForestFault::TooMany),
    }
}

impl Found {
    pub fn new(alloc: Global) -> Found
        ensures { result ≡ [] }
    {
        Found {
            trees: Vec::new(alloc),
            room: 2 * MOST_NODES,
        }
    }

    /// Counts the trees from place `start` on; if there are many, sorts all of them and removes repeats.
    fn count(&mut self, alloc: Global, decls: &[VarDecl], start: usize) -> Result<(), ForestFault>
        requires { start ≤ length self.old }
        ensures trees { IfOk result (λ _. HaveSame self.new self.old) }
        ensures too_many { result ≡ Err ForestFault.TooMany → HasTooMany decls.now (has self.old) }
    {
        if let Some(left) = within(&self.trees[start..], self.room) {
            self.room = left;
            return Ok(());
        }
        let trees = mem::replace(&mut self.trees, Vec::new(alloc));
        *self = settled(alloc, decls, trees)?;
        Ok(())
    }

    /// Adds a tree.
    pub fn put(
        &mut self,
        alloc: Global,
        decls: &[VarDecl],
        tree: Witness,
    ) -> Result<(), ForestFault>
        ensures trees { IfOk result (λ _. (z : Tree) → has self.new z ≡ (has self.old z || same_witness tree z)) }
        ensures too_many { result ≡ Err ForestFault.TooMany
            → HasTooMany decls.now (λ z. has self.old z || same_witness tree z) }
    {
        let start = self.trees.len();
        self.trees.push(tree)?;
        self.count(alloc, decls, start)
    }

    /// Adds what an atom touches.
    pub fn put_touches(
        &mut self,
        alloc: Global,
        g: &Graph,
        f: &Formula,
        node: &Node,
        s: u32,
        env: &Env,
    ) -> Result<(), ForestFault>
        requires { s < count_of g.now }
        ensures trees { IfOk result (λ _. (z : Tree) → has self.new z
            ≡ (has self.old z || has (own_touches f.now.decls f.now.tokens g.now node.now s (total env.now)) z)) }
        ensures too_many { result ≡ Err ForestFault.TooMany → HasTooMany f.now.decls
            (λ z. has self.old z || has (own_touches f.now.decls f.now.tokens g.now node.now s (total env.now)) z) }
    {
        let start = self.trees.len();
        put_own(alloc, g, f, &mut self.trees, node, s, env)?;
        self.count(alloc, f.decls(), start)
    }

    /// Returns the forest of the trees, if it is not too large.
    pub fn into_forest(self, alloc: Global, decls: &[VarDecl]) -> Result<Vec<Witness>, ForestFault>
        ensures trees { IfOk result (λ r. HaveSame r.items self) }
        ensures rise { IfOk result (λ r. Rise decls.now r.items) }
        ensures few { IfOk result (λ r. forest_size r.items ≤ most_nodes) }
        ensures too_many { result ≡ Err ForestFault.TooMany → HasTooMany decls.now (has self) }
    {
        let Found { trees, .. } = self;
        let Found { trees, .. } = settled(alloc, decls, trees)?;
        Ok(trees)
    }
}
