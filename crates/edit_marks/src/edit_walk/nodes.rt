// What edits need of the graphs of items.
ghost use Rattle.std.specs.Prelude.{◌≡◌, map, IfOk};
ghost use Rattle.cfg_build.specs.CfgGraph.Flow.{count_of};
ghost use Rattle.edit_marks.specs.EditWalk.Nodes as spec;

use c_terms::NoMemory;
use c_types::KnownTypes;
use cfg_build::{Graph, NodeKind};
use sqlite_items::Items;
use std::alloc::Global;

/// What edits need of the graph of an item: the kinds of its nodes, and what is known of the types of the item's expressions.
#[derive(Drop)]
pub struct ItemNodes<'g> {
    pub kinds: Items<NodeKind>,
    pub types: KnownTypes<'g>,
}

impl<'g> ItemNodes<'g> {
    /// Returns what edits need of an item without a graph. Takes no memory.
    pub fn none(alloc: Global) -> ItemNodes<'g>
        ensures none { result ≡ spec.no_nodes }
    {
        ItemNodes {
            kinds: Items::new(alloc),
            types: KnownTypes::none(),
        }
    }

    /// Returns what edits need of a graph. Takes one byte per node.
    pub fn of(alloc: Global, graph: &'g Graph<'_>) -> Result<ItemNodes<'g>, NoMemory>
        ensures nodes { IfOk result (λ nodes. nodes ≡ spec.nodes_in graph.now) }
    {
        let kinds = node_kinds(alloc, graph)?;
        Ok(ItemNodes {
            kinds,
            types: graph.types(),
        })
    }
}

/// Returns the kinds of the nodes of a graph, by their numbers.
fn node_kinds(alloc: Global, graph: &Graph<'_>) -> Result<Items<NodeKind>, NoMemory>
    ensures { IfOk result (λ kinds. kinds ≡ map (λ n. n.kind) graph.now.labels) }
{
    let mut kinds = Vec::with_capacity(alloc, graph.count() as usize)?;
    for n in 0..graph.count() {
        kinds.push(graph.label(n).kind)?;
    }
    Ok(Items::from_vec(kinds))
}
