//! One step on the way to a forest: which parts of the formula, at which nodes, a part leads to ([`kids`]), what an atom
//! touches ([`put_own`]), and which values a set assigns to a quantified variable ([`values_in`]).
//!
//! ```text
//!       A[way U end] at 3, where end fails and way holds   leads to   way at 3, A[way U end] at 4 and at 5
//! ```
//!
//! [`forest_by_steps`] is the law: except for quantifiers, a part's forest consists of what the part touches and of the
//! forests of the parts that it leads to.
#![tactic(auto)]

mod envs;
mod laws;
mod steps;
mod touches;
mod values;

pub use envs::changed;
pub use laws::{choices_are_all, forest_by_steps};
pub use steps::kids;
pub use touches::put_own;
pub use values::values_in;
