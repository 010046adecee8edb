//! Reads lists of statements and items of C, and the patterns among them.
//!
//! - [`parse_stmts`] reads a whole range of tokens as one list of statements, which may be empty.
//! - [`parse_item`] reads it as one item: a function, a declaration, a macro's item, or a `;`.
//!
//! `if (a) if (b) f(); else g();` is an If whose body is an IfElse. `foo_t *p;` is a Decl, and `foo_t * p + q;` an
//! ExprStat if `foo_t` is not among the names. `MODULE(x);` is a MacroItem as an item, and an ExprStat as a statement.
//!
//! The rows are those of c_rows, and the reader is that of c_expr. c_decl reads a declaration by itself.
#![tactic(auto)]

mod item;
mod stmts;

pub use item::parse_item;
pub use stmts::parse_stmts;
