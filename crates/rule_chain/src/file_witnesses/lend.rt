// The graphs that are lent to the jobs.
ghost use Rattle.std.specs.Prelude.{◌≡◌, None, true, IfOk, cond, option_copied};
ghost use Rattle.c_file.specs.ItemGraphs.Made.{IsMade};
ghost use Rattle.c_file.specs.ItemGraphs.Typed.{graph_in};
ghost use Rattle.rule_chain.specs.FileWitnesses.Chosen.{AreReady};
ghost use Rattle.rule_chain.specs.FileWitnesses.Lent.{AreChosenGraphs};

use c_file::Graphs;
use c_terms::NoMemory;
use cfg_build::Graph;
use std::alloc::Global;

/// Returns the graph of one item if something may be found in it and it has a tree.
fn lent_one<'g, 'a>(
    graphs: &'g Graphs<'a>,
    typed: bool,
    may_find: bool,
    i: usize,
) -> Option<&'g Graph<'a>>
    requires made { may_find ≡ true → IsMade graphs.now typed i }
    ensures graph { option_copied result ≡ cond may_find (graph_in typed graphs.now.items i) None }
{
    if !may_find {
        return None;
    }
    graphs.get(typed, i)
}

/// Returns for each item its graph, with or without types, if something may be found in the item. These graphs must already be
/// made.
pub fn lend<'g, 'a>(
    alloc: Global,
    graphs: &'g Graphs<'a>,
    typed: bool,
    chosen: &[bool],
) -> Result<Vec<Option<&'g Graph<'a>>>, NoMemory>
    requires ready { AreReady graphs.now typed chosen.now }
    ensures graphs { IfOk result (λ lent. AreChosenGraphs typed graphs.now.items chosen.now lent.items) }
{
    let mut lent = Vec::with_capacity(alloc, chosen.len())?;
    for i in 0..chosen.len() {
        lent.push(lent_one(graphs, typed, chosen[i], i))?;
    }
    Ok(lent)
}
