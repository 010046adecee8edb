// The graph of an item.
ghost use Rattle.std.specs.Prelude.{◌≡◌, ◌^◌, ◌<◌, ◌∷◌, [], OnOk, IfOk};
ghost use Rattle.c_terms.specs.Trees.{width};
ghost use Rattle.cfg_build.specs.Graphs.{node_count, graph_of, exit_node, plus};

use crate::around::Around;
use crate::cfg_graph::{Graph, GraphBuilder, NodeEntry, NodeKind, Seat};
use crate::plan::Plan;
use crate::statement::put_statement;
use c_terms::{NoMemory, Tree};
use std::alloc::Global;

/// Returns the graph of an item. The graph must have fewer than 2^32 nodes, and no branch of the tree may have 2^32
/// children, as is the case for the items of a file. Fails only when out of memory.
///
/// The labels borrow their trees from the item. Linear in the item, unless names of labels are chosen to collide. Recurses
/// once for each level of statements.
pub fn build<'a>(alloc: Global, item: &'a Tree) -> Result<Graph<'a>, NoMemory>
    requires few { node_count item.now < 2 ^ 32 }
    requires narrow { width item.now < 2 ^ 32 }
    ensures graph { IfOk result (λ g. g ≡ graph_of item.now) }
{
    let plan = Plan::of(alloc, item)?;
    let exit = plan.exit;
    let mut rows = GraphBuilder::new(alloc, exit as usize + 1)?;
    let around = Around {
        at: 0,
        bail: false,
        next: exit,
        leave: exit,
        again: exit,
    };
    put_statement(alloc, &plan, item, around, Seat::Item, &mut rows)?;
    put_exit(item, exit, &mut rows)?;
    Ok(rows.into_graph())
}

/// Appends the exit, which names no statement of the item.
fn put_exit<'a>(item: &'a Tree, exit: u32, rows: &mut GraphBuilder<'a>) -> Result<(), NoMemory>
    ensures { OnOk result (rows.new ≡ plus rows.old (exit_node exit ∷ [])) }
{
    let node = NodeEntry {
        tree: item,
        brace: 0,
        seat: Seat::Item,
        kind: NodeKind::ExitNode,
        bail: false,
    };
    rows.push(node, &[exit], None, &[])
}
