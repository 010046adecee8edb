//! Reads declarations of C, and the patterns among them.
//!
//! [`parse_decl`] reads a whole range of tokens as one declaration.
//!
//! `int x = 1, *y;` is a Decl of a Specs, an InitDecl, `,`, a Pointer and `;`. `a (b);` is a Decl here; c_stmt decides
//! whether it is one as a statement or as an item.
//!
//! The rows are those of c_rows, and the reader is that of c_expr.
#![tactic(auto)]

mod decl;

pub use decl::parse_decl;
