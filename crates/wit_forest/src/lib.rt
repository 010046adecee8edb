//! The forest of a formula at a node: the trees of what makes it hold there.
//!
//! [`forest`] explores states, each once. A state is a part of the formula at a node, under an environment; it has touches of
//! its own, and leads to other states. Here is `Atom 0 and AX U` at node 2, where U is `A[True U Exists m. Atom 1]`, Atom 0 is
//! `lock(a);` and Atom 1 is `unlock(m);`, both of them touched:
//!
//! ```text
//!       2 lock(a); ─► 3 if ─┬─► 4 unlock(a); ─┐
//!                           └─► 5 unlock(b); ─┴─► 6
//!
//!       state                     leads to                          adds the tree
//!       Atom 0 and AX U at 2      Atom 0 at 2, AX U at 2
//!       Atom 0 at 2                                                 touch 2 0
//!       AX U at 2                 U at 3
//!       U at 3                    True at 3, U at 4, U at 5
//!       U at 4                    Exists m. Atom 1 at 4
//!       Exists m. Atom 1 at 4     Atom 1 at 4 under m = a           bind 4 m = a (touch 4 1)
//!       U at 5                    Exists m. Atom 1 at 5
//!       Exists m. Atom 1 at 5     Atom 1 at 5 under m = b           bind 5 m = b (touch 5 1)
//! ```
//!
//! If both branches led to one node, its states would be explored once, and their trees would be in the forest once.
//!
//! A forest that is returned has at most [`MOST_NODES`] touches and binds.
//!
//! Its folders:
//!
//! - `wit_order`: Forests of witnesses: trees in order, each once.
//! - `wit_trees`: What the forest of a formula is: at a node under an environment, the trees of what makes it hold there.
//! - `wit_steps`: One step on the way to a forest: which parts of the formula, at which nodes, a part leads to (`kids`),
//!   what an atom touches (`put_own`), and which values a set assigns to a quantified variable (`values_in`).
//! - `reach_laws`: The nodes that an until reaches, whose forests are united, are those that walks reach.
#![tactic(auto)]

mod fault;
mod found;
mod gather;
mod reach_laws;
mod states;
mod wit_order;
mod wit_steps;
mod wit_trees;

pub use fault::ForestFault;
pub use found::MOST_NODES;
pub use gather::forest;
pub use reach_laws::ends_of_untils_are_those_of_walks;
pub use wit_order::{
    declared_order, equal_where_same, one_list_a_forest, within, witness_order,
    witnesses_are_ordered,
};
pub use wit_steps::{choices_are_all, forest_by_steps, values_in};
pub use wit_trees::{alike_environments, forests_rise};
