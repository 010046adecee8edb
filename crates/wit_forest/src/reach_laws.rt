//! The nodes that an until reaches, whose forests are united, are those that walks reach.
//!
//! - [`ends_of_untils_are_those_of_walks`]: rounds over all nodes find a node exactly if some walk, however long, reaches it
//!   through nodes that pass.
//!
//! ```text
//!       0 head ─► 1 {  ─► 2 a(); ─► 3 if ─┬─► 4 b(); ─┐
//!                                         └───────────┴─► 5 } ─► 6 exit (goes to itself)
//! ```
//!
//! From node 2, through nodes other than 4, walks reach nodes 2 to 6, node 4 included: only the nodes before a walk's end
//! must pass.
//!
//! The function does nothing.
#![tactic(auto)]

ghost use Rattle.std.specs.Prelude.{◌<◌, ◌↔◌, ℕ, Bool, Contains};
ghost use Rattle.cfg_build.specs.CfgGraph.Flow.{Flow, IsSound, count_of};
ghost use Rattle.wit_forest.specs.WitTrees.Forest.{reached};
ghost use Rattle.wit_forest.specs.ReachLaws.Reaching.{Comes};

/// The nodes that an until reaches from a node, through nodes that pass, are those that some walk of any length reaches
/// through such nodes. Calling this function does nothing.
pub fn ends_of_untils_are_those_of_walks()
    ensures { (g : Flow) → IsSound g → (test : ℕ → Bool) (s n : ℕ) → s < count_of g →
        Contains (reached g test s) n ↔ Comes g test s n }
{}
