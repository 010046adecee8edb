//! The parts of [`solve`](crate::solve) and [`align`](crate::align), for pat_pairs, which returns the pairs of an alignment:
//! matching a form against a subtree, the lists of forms and files, and the braces of nodes. Also matching one form at a node,
//! and unions of sets, for the crates that choose among forms and join the sets of many nodes.

pub use crate::aligning::fits_seat;
pub use crate::braces::{close_brace, is_close_brace, is_open_brace, open_brace};
pub use crate::fit::{fit, fit_rows};
pub use crate::lists::{ListChild, ListMember, fit_wild, is_wild, list_members, run_tree};
pub use crate::role::{NodeRole, role_at, role_of};
pub use crate::rows::RowEntry;
pub use crate::sets::{put_set, union};
pub use crate::solving::solve_form;
