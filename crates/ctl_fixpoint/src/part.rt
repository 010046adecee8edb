// The rows of a formula's parts, computed one after another.
ghost use Rattle.std.specs.Prelude.{◌≡◌, ℕ, ◌<◌, true, false, List, [], length, IfOk};
ghost use Rattle.cfg_build.specs.CfgGraph.Flow.{IsSound, count_of};
ghost use Rattle.ctl_formula.specs.Formulas.{plain};
ghost use Rattle.ctl_formula.specs.Tables.{below};
ghost use Rattle.ctl_fixpoint.specs.CtlHolds.Parts.{EachPattern};
ghost use Rattle.ctl_fixpoint.specs.CtlHolds.BoundLaw.{SureStand};
ghost use Rattle.ctl_fixpoint.specs.States.{AreStateSets};
ghost use Rattle.ctl_fixpoint.specs.Steps.{row_of, IsRowBy};

use crate::blocks::{inside_row, outside_row};
use crate::point::point_row;
use crate::rows::row_at;
use crate::sound_graph::SoundGraph;
use crate::until::{exists_row, until_row};
use c_terms::NoMemory;
use cfg_build::Graph;
use ctl_formula::{Formula, Node};
use env_sets::{EnvSet, StateRow, StateSets};
use std::alloc::Global;

/// Returns the row of a part, given the rows of its parts.
fn part_row(
    alloc: Global,
    g: &Graph,
    f: &Formula,
    node: &Node,
    rows: &[StateRow],
) -> Result<Vec<EnvSet>, NoMemory>
    requires sound { IsSound g.now }
    requires kids { below (length rows.now) node.now ≡ true }
    requires wide { (i : ℕ) → i < length rows.now → length (row_of rows.now i) ≡ count_of g.now }
    ensures { IfOk result (λ r. IsRowBy f.now.decls f.now.tokens g.now rows.now node.now r.items) }
{
    match node {
        Node::Inside(b) => inside_row(alloc, g, b),
        Node::Outside(b) => outside_row(alloc, g, b),
        Node::AU(way, end) => until_row(alloc, g, true, row_at(rows, *way), row_at(rows, *end)),
        Node::EU(way, end) => until_row(alloc, g, false, row_at(rows, *way), row_at(rows, *end)),
        Node::Exists(x, i) => exists_row(alloc, x, row_at(rows, *i)),
        _ => point_row(alloc, g, f, node, rows),
    }
}

/// Returns, for each part of the formula and each node of the graph, the set of exactly the environments under which the
/// part holds there. Parts are numbered as in the formula's table. The sure variables of the formula's patterns must occur
/// in them, as they do in every pattern that a patch spells.
///
/// Each part is computed once, and an atom once per node. Of an until, a node is recomputed only if the set of a successor
/// has changed, in as many sweeps over the nodes as it takes until nothing changes. If edges lead back only to the heads of
/// loops, nested d deep, this is as a rule linear in the nodes times d + 2, apart from the sets; each further jump backwards
/// on a walk may take one more sweep.
pub fn sat(alloc: Global, g: &SoundGraph<'_, '_>, f: &Formula) -> Result<StateSets, NoMemory>
    requires { EachPattern (SureStand f.now.decls f.now.tokens) (plain f.now) }
    ensures { IfOk result (λ sets. AreStateSets g.now.graph.now f.now sets) }
{
    let _root = f.root();
    let mut rows = Vec::with_capacity(alloc, f.len())?;
    for i in 0..f.len() {
        let row = part_row(alloc, g.graph, f, f.node(i), &rows)?;
        rows.push(StateRow::of(alloc, row)?)?;
    }
    Ok(StateSets::new(rows))
}
