//! The data that every part of the tool shares: texts, tokens, trees, names, and the order of terms.
//!
//! - [`Text`] keeps bytes; [`Token`] is a text with its [`TokenKind`] and an id, which edits keep.
//! - [`Tree`] is a token, or a branch with its [`Label`]; [`TreePath`] is a place in one.
//! - [`leaves`], [`first_leaf`], [`child`], [`subtree`], [`width`] and [`expression_paths`] read a
//!   tree.
//! - [`same_term`] and [`term_order`] compare trees, [`is_same_token`], [`compare_tokens`],
//!   [`same_text`] and [`text_order`] their parts.
//! - [`Label::is_expression`] and its like, [`Label::shape`], [`is_expression_part`] say what a label is.
//! - [`members_of`] and [`run_of`] take a list apart by its commas and put it together.
//! - [`Names`] are the names that denote types. [`NoMemory`] is the one error that no caller can foresee.
//! - [`term_order_is_total`], [`same_term_is_equality`], [`numbers_tell_apart`],
//!   [`names_stay_distinct`] and [`paths_lead_to_parts`] are laws: their clauses hold, and their bodies are empty.
//!
//! The tree of `f(x)` is `Branch(Call, [f, (, Branch(Args, [x]), )])`; its leaves are `f ( x )`.
//!
//! Calls on trees recurse once per level. Parsers build at most 1,000 levels, for which 256 KB of
//! stack are enough. Which bytes make a token is up to c_lexer, and which trees are C is up to
//! c_rows.
#![tactic(auto)]

mod constant;
mod label;
mod laws;
mod list;
mod names;
mod order;
mod place;
mod same;
mod shape;
mod text;
mod token;
mod tree;

pub use constant::{is_constant_name, is_strings};
pub use label::Label;
pub use laws::{
    names_stay_distinct, numbers_tell_apart, paths_lead_to_parts, same_term_is_equality,
    term_order_is_total,
};
pub use list::{Member, comma, is_comma, members_of, run_of};
pub use names::Names;
pub use order::{compare_tokens, term_order, text_order};
pub use place::{child, expression_paths, first_leaf, subtree, width};
pub use same::{is_same_token, same_term, same_text};
pub use shape::{Shape, is_expression_part};
pub use text::{NoMemory, Text};
pub use token::{MetaKind, Token, TokenKind};
pub use tree::{Tree, TreePath, leaves};
