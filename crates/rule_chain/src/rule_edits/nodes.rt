// What edits need of a file's graphs.
ghost use Rattle.std.specs.Prelude.{◌≡◌, ◌<◌, ◌++◌, ◌∷◌, [], ℕ, Bool, IfOk, OnOk, length};
ghost use Rattle.c_file.specs.ItemGraphs.Made.{IsMade};
ghost use Rattle.smpl_patch.specs.Wants.{ask_types};
ghost use Rattle.rule_chain.specs.RuleEdits.Nodes as spec;

use c_file::Graphs;
use c_terms::NoMemory;
use edit_marks::ItemNodes;
use smpl_patch::{Rule, ask_types};
use std::alloc::Global;

/// Makes the graphs of all items that aren't made yet, with types if the rule asks for them.
pub fn make_all(
    alloc: Global,
    rule: &Rule,
    graphs: &mut Graphs<'_>,
    count: usize,
) -> Result<(), NoMemory>
    requires count { count ≡ length graphs.old.items }
    ensures made { OnOk result ((i : ℕ) → i < count → IsMade graphs.new (ask_types rule.now.vars) i) }
    ensures items { graphs.new.items ≡ graphs.old.items }
    ensures kept { (typed : Bool) (k : ℕ) → IsMade graphs.old typed k → IsMade graphs.new typed k }
{
    let typed = ask_types(rule.vars.as_slice());
    for i in 0..count {
        graphs.make(alloc, typed, i)?;
    }
    Ok(())
}

fn nodes_at<'g>(
    alloc: Global,
    rule: &Rule,
    graphs: &'g Graphs<'_>,
    i: usize,
) -> Result<ItemNodes<'g>, NoMemory>
    requires made { IsMade graphs.now (ask_types rule.now.vars) i }
    ensures nodes { IfOk result (λ nodes. nodes ≡ spec.nodes_at rule.now graphs.now.items i) }
{
    match graphs.get(ask_types(rule.vars.as_slice()), i) {
        Some(graph) => ItemNodes::of(alloc, graph),
        None => Ok(ItemNodes::none(alloc)),
    }
}

/// Returns what edits of the rule need of all graphs, which must already be made, item by item; an item without a tree has
/// nothing.
pub fn nodes<'g>(
    alloc: Global,
    rule: &Rule,
    graphs: &'g Graphs<'_>,
    count: usize,
) -> Result<Vec<ItemNodes<'g>>, NoMemory>
    requires count { count ≡ length graphs.now.items }
    requires made { (i : ℕ) → i < count → IsMade graphs.now (ask_types rule.now.vars) i }
    ensures nodes { IfOk result (λ nodes. nodes.items ≡ spec.nodes_of rule.now graphs.now.items) }
{
    let mut nodes = Vec::with_capacity(alloc, count)?;
    for i in 0..count {
        nodes.push(nodes_at(alloc, rule, graphs, i)?)?;
    }
    Ok(nodes)
}
