//! Finds where the faults of semantic patches are.
//!
//! - [`fault_at`] returns the offset of the byte at which a fault of a patch is.
//! - [`faults_have_one_place`] is a law: its contract holds, and calling it does nothing.
//!
//! A fault with a byte of its own is there. A fault of a whole rule, or of a variable of a rule, is at the first byte of the
//! rule's header. For the two lines `* a();` and `- b();` after `@@` and `@@` it is byte 0. Code that is neither an
//! expression, nor statements, nor one function is at the first piece of it that isn't statements by itself, so at the second
//! line of `a();` and `b()`.
//!
//! text_places says which line and column a byte has.
#![tactic(auto)]

mod code;
mod fault;
mod laws;
mod pieces;
mod rule;
mod shape;
mod sign;

pub use fault::fault_at;
pub use laws::{faults_have_one_place, faults_have_places};
