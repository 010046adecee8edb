//! Types of C as a declaration writes them, and what is known of the types of an item's expressions.
//!
//! - [`Ty`] is a type. [`same_type`] compares two, and [`element`], [`target`], [`returned`], [`called`] and [`adjusted`] derive
//!   one from another.
//! - [`TypeTable`] has the types of the expressions of an item, and its local names. [`KnownTypes`] borrows one, and finds in it
//!   the type of a subtree of the item.
//!
//! In `void f(struct s *p) { g(p->n); }` a table may say that the subtree `p` has the type `struct s *`. It finds the subtree by
//! the id of its first token and by how many levels it has, in time linear in the subtree. Which type an expression has is for
//! the crate that reads declarations, c_typing.
#![tactic(auto)]

mod table;
mod tree_key;
mod ty;

pub use table::{KnownTypes, TypeTable};
pub use tree_key::{TreeKey, expression_keys};
pub use ty::{Ty, adjusted, called, copy_type, element, returned, same_type, same_words, target};
