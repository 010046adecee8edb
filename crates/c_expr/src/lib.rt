//! Reads expressions, type names, specifiers, declarators and initialisers of C, and the patterns among them.
//!
//! - [`parse_expr`], [`parse_type_name`], [`parse_specs`], [`parse_declarator`] and [`parse_init`] read a whole range of
//!   tokens as one tree of that kind. [`parse_kind`] reads any kind that is not read within a list.
//! - [`ParseFault`] says why there is no tree.
//!
//! `a = b = c` is an Assign of `a`, `=`, and an Assign of `b`, `=`, `c`. `a -` is NoTree. 201 brackets open at once are
//! TooDeep. `(foo_t) x` is a Cast whether or not `foo_t` is among the names; `(foo_t) - x` is one only if it is.
//!
//! The parser is one reader of the rows of c_rows. It is proved once for all rows: the result is a tree of the range, the
//! range has no other tree of its kind, and NoTree is returned only if it has none. A tree has at most 1,000 levels of
//! branches.
//!
//! Recursion goes five calls deep for each level, six in a trial reading. A faulty range costs no more than a correct one,
//! since the parser never backtracks. One thing is read ahead: what follows `(` or `,` and may be a type by its first three
//! tokens and by its end is tried as an expression before the range is read, without building trees. Results for what is
//! in brackets are kept, so it is tried again only for another kind or for more levels.
//!
//! The calls for declarations, statements and items are in the folders below. c_lexer cuts text into tokens.
//!
//! Its folders:
//!
//! - `c_decl`: Reads declarations of C, and the patterns among them.
//! - `c_stmt`: Reads lists of statements and items of C, and the patterns among them.
#![tactic(auto)]

mod c_decl;
mod c_stmt;
mod depth;
mod ends;
mod fault;
mod laws;
mod memo;
mod parse;
mod range;
mod recognizer;
mod see;
mod semicolons;

pub use c_decl::parse_decl;
pub use c_stmt::{parse_item, parse_stmts};
pub use fault::ParseFault;
pub use laws::ranges_have_one_tree;
pub use range::{
    parse_declarator, parse_expr, parse_init, parse_kind, parse_specs, parse_type_name,
};
