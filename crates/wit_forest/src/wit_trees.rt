//! What the forest of a formula is: at a node under an environment, the trees of what makes it hold there.
//!
//! The definition is `specs/WitTrees/Forest`, by the cases of a formula; [`forests_rise`] and [`alike_environments`] are the
//! laws that all modules that make forests share. [`is_touched`] says which atoms have touches.
//!
//! ```text
//!       2 lock(a); ─► 3 if ─┬─► 4 unlock(a); ─┐        touch 2 0
//!                           └─► 5 unlock(b); ─┴─► 6    bind 4 m = a (touch 4 1)   bind 5 m = b (touch 5 1)
//! ```
//!
//! An until has the trees of all nodes that its walks reach, each once: a loop, or a branch that joins again, adds nothing.
//! After the witnesses of Brunel, Doligez, Hansen, Lawall and Muller (POPL 2009).
#![tactic(auto)]

mod laws;
mod marks;

pub use laws::{alike_environments, forests_rise};
pub use marks::is_touched;
