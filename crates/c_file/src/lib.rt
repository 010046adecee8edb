//! Reads a C file as a list of items: functions, declarations, macros' items, and what is skipped.
//!
//! - [`read_file`] reads the pieces of a text. It knows types by their names: the listed names, and those that the
//!   typedefs before an item declare.
//! - [`CFile`] has the text, its items and their graphs.
//! - [`read_once`] is a law, and does nothing: a text is read in one way.
//!
//! In `typedef int t; void k(void) { x = (t)(y); }` both items are read, and the second has a cast.
//!
//! An item that is too deep, that no tree of at most 1,000 levels spells, or whose graph would have more than 20,000 nodes
//! is skipped with its reason, and the items after it are read. Reading fails only when out of memory.
//!
//! c_lexer cuts the text, cpp_lines finds shown tokens and spans, c_expr builds trees, and cfg_build builds graphs.
//!
//! Its folders:
//!
//! - `item_graphs`: The control-flow graphs of a file's items, each made once, when it is first requested.
#![tactic(auto)]

mod file;
mod item;
mod item_graphs;
mod laws;
mod token;
mod typedefs;

pub use file::{CFile, read_file};
pub use item::add_names;
pub use item_graphs::Graphs;
pub use laws::read_once;
