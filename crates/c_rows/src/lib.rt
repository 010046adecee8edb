//! The grammar of C as data: its rows, the trees that they allow, and how a reader chooses among them.
//!
//! - [`row`] and [`ways`] are the rows: lists of [`Symbol`]s, each a token of a [`Word`], a tree of a [`Kind`], a member
//!   of an argument list, or a [`Fork`] at which the row continues in one of several ways.
//! - [`kind_of`], [`label_of`] and [`allows`] say which kind and label the branches of a [`Rule`] have, and which parts they
//!   allow together. [`within`] and [`has_leaf`] say which kinds include which, and what a token is by itself.
//! - [`look`] is the [`Class`] of the front of a list of tokens: which names are types, and what a bracket begins.
//!   A [`Seen`] is a token with its class.
//! - With [`head`], [`tail`], [`choose`], [`left`] and [`own`], a reader chooses a rule and a way by one class.
//!   [`may_be_type`] says by three classes whether a type can be a member of an argument list, [`turn_at`] how a token
//!   bears on where a member ends, and [`group_at`] how it bears on whether a branch has a `;`.
//!
//! `row(Rule::Cast)` is `(`, a TypeName, `)`, an expression of Cast level. If `a` is not in the names, the first `(` of
//! `(a) ~b` is of class `CastNest`, and that of `(a) - b` of class `ParenNest`.
//!
//! The specification says which trees are right without saying how to read: `Derives` in specs/Derives, and `IsTreeOf` in
//! specs/Trees. The reader is c_expr.
//!
//! No call allocates memory. Only [`allows`] recurses, as it walks down a declarator.
#![tactic(auto)]

/// `row![word AnyOpen, child Expr, one Close]` is a list of symbols: a word that is a set of classes, a kind, a class.
macro_rules! row {
    (@one one $name:ident) => { Symbol::Word(Word::One(Class::$name)) };
    (@one word $name:ident) => { Symbol::Word(Word::$name) };
    (@one child $name:ident) => { Symbol::Child(Kind::$name) };
    (@one fork $name:ident) => { Symbol::Fork(Fork::$name) };
    (@one any $name:ident) => { Symbol::$name };
    ($($what:ident $name:ident),*) => { &[$(row!(@one $what $name)),*] };
}

mod beginnings;
mod brackets;
mod branches;
mod choice;
mod class;
mod depth;
mod facts;
mod forks;
mod guards;
mod kind;
mod labels;
mod laws;
mod lookahead;
mod member;
mod names;
mod parts;
mod plain;
mod rule;
mod seen;
mod symbol;
mod texts;
mod turn;
mod word;
mod words;

pub use beginnings::ends_member;
use beginnings::{
    begins_by_keyword, begins_declarator, begins_expression, begins_specs, begins_tag, ends_list,
    first,
};
pub use branches::{Group, group_at};
pub use choice::{choose, head, left, own, tail};
pub use class::Class;
pub use depth::{MOST_OPEN, depth_after};
pub use facts::Facts;
pub use forks::ways;
pub use guards::allows;
use guards::{begins, begins_declaration, begins_dots, begins_macro, may_go};
use kind::same_family;
pub use kind::{Family, Kind, bottom, family_of, has_leaf, within};
pub use labels::label_of;
use labels::{Naming, is_block};
pub use laws::{
    facts_are_enough, leaves_are_the_tokens, members_have_one_end, rivals_need_no_rule,
};
pub use lookahead::look;
pub use member::may_be_type;
pub use parts::{allows_facts, branch_facts, leaf_facts};
use plain::{declares_function, is_plain_type};
use rule::production_of;
pub use rule::{Rule, kind_of, row};
pub use seen::{Seen, front, front_typed, leads_member, member_kind};
pub use symbol::{Fork, Symbol};
pub use turn::{Turn, turn_at};
use word::same_class;
pub use word::{Word, fits};
use words::{is_named, is_storage};
