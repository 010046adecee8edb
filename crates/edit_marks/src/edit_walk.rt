//! The edits of a rule: for each place that its witnesses touch, what the alignment there removes and inserts.
//!
//! - [`edits`] returns the edits of witnesses, one per touch, in the order of the touches, keeping the first of several
//!   equal ones.
//! - [`ItemNodes`] has the kinds of a graph's nodes and the types that are known of the item's expressions, which is all that
//!   [`edits`] needs of the items' graphs.
//! - [`witnesses_have_one_list`] is a law: its definition allows witnesses only one list of edits. The function does
//!   nothing.
//!
//! For example, take `f(E)` with its `f` marked by `-`. If it is touched at node 2 under a bind of `E`, the edit removes the
//! `f` there. Another touch of the same place under the same values yields the same edit, which counts once.
//!
//! A touch names a node, the number of an atom and a path. Its alignment is that of the first form of the atom's pattern
//! that fits the subtree there, under the values of the witness and of the binds above the touch. If it names nothing, or if
//! no form fits, its edit is empty, as it is if the pattern has neither minus tokens nor plus code.
//!
//! [`edits`] fails only when out of memory. It recurses once per level of a forest, of a body and of a term, and as matching
//! does.
//!
//! `aligned_tokens` of pat_match finds the alignment, and [`edit_of`](crate::edit_of) returns its edit.
//! [`first_clash`](crate::first_clash) finds clashes, and `edited_text` of edit_unparse makes the new text.
#![tactic(auto)]

mod aligned;
mod context;
mod laws;
mod nodes;
mod numbers;
mod patterns;
mod tokens;
mod touch;
mod walk;

pub(crate) use context::WalkContext;
pub use laws::witnesses_have_one_list;
pub use nodes::ItemNodes;
pub(crate) use numbers::Numbers;
pub(crate) use patterns::patterns_of;
pub(crate) use tokens::token_ids;
pub(crate) use touch::pairs_at_touch;
pub use walk::edits;
pub(crate) use walk::{atoms_of, bound};
