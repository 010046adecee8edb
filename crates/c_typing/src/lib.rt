//! The types of the expressions of an item, as far as the declarations of its file give them.
//!
//! - [`declared`] returns the type that a declaration gives to the name in one of its declarators.
//!   [`declarator_name`] returns the name.
//! - [`Scope`] has the names and fields that the items of a file have declared so far.
//! - [`annotate`] returns the types of the expressions of an item, and its local names, in time linear in the item, as a table of
//!   c_types.
//!
//! In `struct s { struct s *n; }; void f(struct s *p, int q) { g(p->n, q); }` the arguments of `g` have the types
//! `struct s *` and `int`, and `g(p->n, q)` has none, since `g` isn't declared.
//!
//! Types are compared as they are written: typedefs aren't opened, no conversion of C is made, and qualifiers don't count. An
//! expression whose type isn't known from the declarations of the file has none. Trees come from c_file. Which
//! expressions a pattern takes is for the crates above.
#![tactic(auto)]

mod base;
mod binding;
mod bindings;
mod declaration;
mod declarator;
mod expression;
mod field;
mod key;
mod local;
mod numbers;
mod part;
mod scope;

pub use declarator::{declarator_name, declared};
pub use part::annotate;
pub use scope::Scope;
