//! Where the parts of a formula hold in a graph, as sets of environments: satisfaction by fixpoints.
//!
//! [`sat`] returns, for each part of a formula's table and each node of the graph, the set of environments under which the
//! part holds there. Parts are processed in the table's order, each once, so a part that occurs several times in the formula
//! is computed once. The graph is a [`SoundGraph`]: one that contracts know to be sound, as every graph is.
//!
//! ```text
//!       0 head ─► 1 {  ─► 2 lock(a); ─► 3 f(); ─► 4 unlock(a); ─► 5 } ─► 6 exit (goes to itself)
//! ```
//!
//! `E[True U unlock(E);]` has the single entry "`E` is `a`" at nodes 0 to 4, and no entry after them.
//!
//! An until is the least fixpoint of rounds: it holds where its end holds, or where its way holds and the until holds next.
//! The sets start empty and only grow. A sweep visits the nodes from the last to the first, so that what holds further on is
//! known when it is needed, and recomputes a node only if the set of a successor has changed since the node was last
//! computed. When a sweep changes nothing, the fixpoint is reached: as a rule after two sweeps, plus one for each loop that
//! encloses another and for each jump backwards on a walk. After Clarke, Emerson and Sistla (1986), over the sets of
//! environments of Brunel, Doligez, Hansen, Lawall and Muller (POPL 2009).
//!
//! Nothing here recurses over a formula or a graph.
//!
//! Its folders:
//!
//! - `ctl_holds`: Path satisfaction: at which nodes of a control-flow graph, and under which environments, a formula holds.
//! - `required_words`: The words that a formula needs: if an item lacks one of them, the formula holds nowhere in the item.
#![tactic(auto)]

mod blocks;
mod ctl_holds;
mod part;
mod point;
mod required_words;
mod rows;
mod sound_graph;
mod sweeps;
mod until;

pub use ctl_holds::{
    bound_variables_have_values, every_part_has_a_number, sure_variables_stand, walks_by_rounds,
};
pub use part::sat;
pub use required_words::{
    FormGroup, formulas_need_words, looks_of, may_hold, needed_words, solve_by,
};
pub use sound_graph::SoundGraph;
