//! Writes out trees of C, and says which texts need a space between them.
//!
//! - [`show`] returns the text of a tree.
//! - [`runs_together`] says whether two texts would be cut differently if there were no space between them. In contracts
//!   it is a function of the two texts.
//!
//! The tree of `a=b [ 1 ] ,c` is written `a = b[1], c`, and that of `- - a` as `- -a`.
//!
//! [`show`] fails only when out of memory, and recurses once for each level of the tree.
//!
//! The crate edit_unparse keeps the texts between the tokens of a file.
#![tactic(auto)]

mod joint;
mod layout;
mod page;

pub use joint::runs_together;
pub use layout::show;
