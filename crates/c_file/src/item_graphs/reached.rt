// What the items before one have declared, and the graph of an item with the types of its expressions.
ghost use Rattle.std.specs.Prelude.{◌≡◌, ◌<◌, ◌≤◌, [], IfOk, OnOk, OnErr, length};
ghost use Rattle.c_typing.specs.ItemTypes.{item_types};
ghost use Rattle.cfg_build.specs.CfgGraph.Flow.{with_types};
ghost use Rattle.c_file.specs.ItemGraphs.Typed as spec;

use crate::CFile;
use c_terms::{NoMemory, Tree};
use c_typing::{Scope, annotate};
use cfg_build::{Graph, build};
use cpp_lines::Item;
use sqlite_items::at;
use std::alloc::Global;

/// What the items before `next` have declared.
#[derive(Drop)]
pub(crate) struct Reached {
    pub(crate) scope: Scope,
    pub(crate) next: usize,
}

impl Reached {
    /// Returns what is declared before the first item.
    pub(crate) fn new(alloc: Global) -> Reached
        ensures first { result.next ≡ 0 }
        ensures none { result.scope ≡ spec.scope_of [] }
    {
        Reached {
            scope: Scope::new(alloc),
            next: 0,
        }
    }
}

/// Adds what an item declares, if it has a tree.
fn add_item(alloc: Global, item: &Item, scope: &mut Scope) -> Result<(), NoMemory>
    ensures ok { OnOk result (scope.new ≡ spec.with_read scope.old item.now) }
    ensures err { OnErr result (scope.new ≡ scope.old) }
{
    match item {
        Item::Parsed(tree) => scope.add(alloc, tree),
        Item::Skipped(_, _) => Ok(()),
    }
}

/// Begins anew, if items from this one on are added.
#[tactic(auto, using(crate::proofs::ItemGraphs::ReachLemmas::reached_new))]
fn begin(alloc: Global, items: &[Item], reached: &mut Reached, i: usize)
    requires { spec.IsReached items.now reached.old }
    ensures still { spec.IsReached items.now reached.new }
    ensures before { reached.new.next ≤ i }
{
    if reached.next <= i {
        return;
    }
    *reached = Reached::new(alloc);
}

/// Adds the items up to this one that aren't added yet. If items from this one on are, it begins anew.
fn reach(alloc: Global, items: &[Item], reached: &mut Reached, i: usize) -> Result<(), NoMemory>
    requires within { i ≤ length items.now }
    requires before { spec.IsReached items.now reached.old }
    ensures after { spec.IsReached items.now reached.new }
    ensures next { OnOk result (reached.new.next ≡ i) }
{
    begin(alloc, items, reached, i);
    while reached.next < i {
        let next = reached.next;
        add_item(alloc, &items[next], &mut reached.scope)?;
        reached.next = next + 1;
    }
    Ok(())
}

/// Returns the graph of a tree with the types of its expressions, under what is declared before it.
fn with_types<'a>(
    alloc: Global,
    graph: Graph<'a>,
    scope: &Scope,
    tree: &Tree,
) -> Result<Graph<'a>, NoMemory>
    ensures { IfOk result (λ typed. typed ≡ with_types graph.entry (item_types scope.now tree.now)) }
{
    let types = annotate(alloc, scope, tree)?;
    Ok(graph.with_types(types))
}

/// Returns the graph of an item with the types of its expressions, if the item has a tree. Costs one [`build`], one
/// [`annotate`], and one step for each item that is added.
#[tactic(auto, using(crate::proofs::ItemGraphs::ReachLemmas::typed_here))]
pub(crate) fn graph_with_types<'a>(
    alloc: Global,
    file: &'a CFile,
    reached: &mut Reached,
    i: usize,
) -> Result<Option<Graph<'a>>, NoMemory>
    requires within { i < length file.now.items }
    requires before { spec.IsReached file.now.items reached.old }
    ensures after { spec.IsReached file.now.items reached.new }
    ensures graph { IfOk result (λ graph. graph ≡ spec.typed_graph file.now.items i) }
{
    let items = file.items();
    match at(items, i) {
        Some(Item::Parsed(tree)) => {
            let graph = build(alloc, tree)?;
            reach(alloc, items, reached, i)?;
            let typed = with_types(alloc, graph, &reached.scope, tree)?;
            Ok(Some(typed))
        }
        Some(Item::Skipped(_, _)) => Ok(None),
        None => Ok(None),
    }
}
