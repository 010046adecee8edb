// The graphs of a reading.
ghost use Rattle.std.specs.Prelude.{◌≡◌, ◌<◌, ◌^◌, ℕ, Bool, None, Some, true, false, IfOk, IfSome, OnOk, All, length, slice_get, option_copied};
ghost use Rattle.cfg_build.specs.CfgGraph.Flow.{Flow};
ghost use Rattle.cfg_build.specs.Graphs.{node_count};
ghost use Rattle.c_file.specs.ItemGraphs.Pool.{graphs_in};
ghost use Rattle.c_file.specs.ItemGraphs.Made.{IsMade};
ghost use Rattle.c_file.specs.ItemGraphs.Trees.{item_tree};
ghost use Rattle.c_file.specs.ItemGraphs.Typed.{graph_in};

use crate::CFile;
use crate::item_graphs::reached::{Reached, graph_with_types};
use c_terms::{NoMemory, Tree};
use cfg_build::Graph;
use cpp_lines::Item;
use sqlite_items::{Items, at};
use std::alloc::Global;
use std::marker::Model;

/// The graphs of a file's items that have been made so far, with and without the types of the items' expressions. Contracts see
/// the items, and for each its graphs if they are made.
#[derive(Drop)]
pub struct Graphs<'a> {
    file: &'a CFile,
    made: Items<Option<Graph<'a>>>,
    typed: Items<Option<Graph<'a>>>,
    reached: Reached,
}

impl<'a> Model for Graphs<'a> {
    ghost use Rattle.std.specs.Coded.{codes};
    ghost use Rattle.c_terms.specs.contracts.tree.Tree as tree;
    ghost use Rattle.c_types.specs.contracts.ty.Ty as ty;
    ghost use Rattle.c_file.specs.ItemGraphs.Pool.{Pool};

    ghost Value = { Pool };

    ghost coded = { Prim.hlevel (codes, tree.the_row.coded, ty.the_row.coded) };

    ghost use Rattle.c_file.specs.ItemGraphs.Made.{AreMade, AreTyped};
    ghost use Rattle.c_file.specs.ItemGraphs.Typed.{IsReached};

    ghost view = { λ a. record { items = a.file.now.items; graphs = a.made; typed = a.typed } };

    ghost invariant = { λ a. AreMade a.file.now.items a.made × AreTyped a.file.now.items a.typed × IsReached a.file.now.items a.reached };
}

/// Returns `count` places, none with a graph.
fn places<'a>(alloc: Global, count: usize) -> Result<Items<Option<Graph<'a>>>, NoMemory>
    ensures count { IfOk result (λ made. length made ≡ count) }
    ensures none { IfOk result (λ made. All (λ graph. graph ≡ None) made) }
{
    let mut made = Items::new(alloc);
    while made.len() < count {
        made.push(None)?;
    }
    Ok(made)
}

impl<'a> Graphs<'a> {
    /// Returns the graphs of a file's items, none of which is made yet. Takes two places for each item.
    pub fn new(alloc: Global, file: &'a CFile) -> Result<Graphs<'a>, NoMemory>
        ensures items { IfOk result (λ graphs. graphs.items ≡ file.now.items) }
    {
        let count = file.items().len();
        let made = places(alloc, count)?;
        let typed = places(alloc, count)?;
        let reached = Reached::new(alloc);
        Ok(Graphs {
            file,
            made,
            typed,
            reached,
        })
    }

    /// Returns the tree of an item, if the item has one. Its graph has fewer than 2^32 nodes. Takes no memory, and makes no
    /// graph.
    #[tactic(auto, using(crate::proofs::ItemGraphs::TreeLemmas::trees_few))]
    pub fn tree(&self, i: usize) -> Option<&Tree>
        ensures tree { option_copied result ≡ item_tree (slice_get self.now.items i) }
        ensures few { IfSome (item_tree (slice_get self.now.items i)) (λ t. node_count t < 2 ^ 32) }
    {
        match at(self.file.items(), i) {
            Some(Item::Parsed(tree)) => Some(tree),
            Some(Item::Skipped(_, _)) => None,
            None => None,
        }
    }

    /// Returns the places of the graphs with or without types.
    fn graphs(&self, typed: bool) -> &[Option<Graph<'a>>]
        ensures places { result.now ≡ graphs_in typed self.now }
        ensures own { (i : ℕ) (g : Flow) → slice_get result.now i ≡ Some (Some g) → IsMade self.now typed i }
    {
        if typed {
            self.typed.as_slice()
        } else {
            self.made.as_slice()
        }
    }

    fn is_made(&self, typed: bool, i: usize) -> bool
        ensures { result ≡ true → IsMade self.now typed i }
    {
        matches!(at(self.graphs(typed), i), Some(Some(_)))
    }

    fn make_typed(&mut self, alloc: Global, i: usize) -> Result<(), NoMemory>
        requires { i < length self.old.items }
        ensures items { self.new.items ≡ self.old.items }
        ensures made { OnOk result (IsMade self.new true i) }
        ensures kept { (typed : Bool) (k : ℕ) → IsMade self.old typed k → IsMade self.new typed k }
    {
        let graph = graph_with_types(alloc, self.file, &mut self.reached, i)?;
        self.typed.set(i, graph);
        Ok(())
    }

    fn make_plain(&mut self, alloc: Global, i: usize) -> Result<(), NoMemory>
        requires { i < length self.old.items }
        ensures items { self.new.items ≡ self.old.items }
        ensures made { OnOk result (IsMade self.new false i) }
        ensures kept { (typed : Bool) (k : ℕ) → IsMade self.old typed k → IsMade self.new typed k }
    {
        let graph = self.file.graph(alloc, i)?;
        self.made.set(i, graph);
        Ok(())
    }

    /// Makes the graph of an item, with or without the types of its expressions, unless it is made already. Fails only when out
    /// of memory, and then the graphs that are made stay.
    ///
    /// Costs one [`CFile::graph`] the first time. With types it also costs one `annotate` of c_typing, and the items before this
    /// one are added to a scope: those that aren't there yet, or all of them if the last graph with types was that of a later
    /// item. So in order the graphs of all items take time linear in the file.
    pub fn make(&mut self, alloc: Global, typed: bool, i: usize) -> Result<(), NoMemory>
        requires within { i < length self.old.items }
        ensures items { self.new.items ≡ self.old.items }
        ensures made { OnOk result (IsMade self.new typed i) }
        ensures kept { (typed : Bool) (k : ℕ) → IsMade self.old typed k → IsMade self.new typed k }
    {
        if self.is_made(typed, i) {
            return Ok(());
        }
        if typed {
            self.make_typed(alloc, i)
        } else {
            self.make_plain(alloc, i)
        }
    }

    /// Returns the graph of an item, with or without the types of its expressions, if the item has a tree. Takes no memory.
    pub fn get(&self, typed: bool, i: usize) -> Option<&Graph<'a>>
        requires made { IsMade self.now typed i }
        ensures graph { option_copied result ≡ graph_in typed self.now.items i }
    {
        match at(self.graphs(typed), i) {
            None => None,
            Some(graph) => graph.as_ref(),
        }
    }
}
