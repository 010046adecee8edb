// The signs of patterns: whether expressions or statements follow them.
ghost use Rattle.std.specs.Prelude.{◌≡◌};
ghost use Rattle.c_rows.specs.Look as ahead;

use crate::brackets::{is_closing, is_opening};
use crate::texts::pattern_class;
use crate::words::{is_pat, is_sign};
use crate::{Class, begins_by_keyword};
use c_terms::Token;

/// Whether the token is an opening bracket, `\(`, `<...` or `<+...`.
fn opens_group(token: &Token) -> bool
    ensures { result ≡ ahead.opens_group token.now }
{
    is_opening(token) || is_pat(token, b"\\(") || is_pat(token, b"<...") || is_pat(token, b"<+...")
}

/// Whether the token is a closing bracket, `\)`, `...>` or `...+>`.
fn closes_group(token: &Token) -> bool
    ensures { result ≡ ahead.closes_group token.now }
{
    is_closing(token) || is_pat(token, b"\\)") || is_pat(token, b"...>") || is_pat(token, b"...+>")
}

/// Whether the token is `\|` or `\&`.
fn parts_branches(token: &Token) -> bool
    ensures { result ≡ ahead.parts_branches token.now }
{
    is_pat(token, b"\\|") || is_pat(token, b"\\&")
}

/// What a token does to a scan for the `;` of a branch.
#[derive(Clone, Copy)]
pub enum Group {
    /// It opens a bracket, a PatOr, a PatAnd or a nest.
    Opening,
    /// It closes one.
    Closing,
    /// `\|` or `\&`
    Parting,
    /// `;`
    Semicolon,
    /// Any other
    Plain,
}

/// Returns what a token does to a scan for the `;` of a branch. Allocates no memory.
pub fn group_at(token: &Token) -> Group
    ensures value { result ≡ ahead.group token.now }
{
    if opens_group(token) {
        Group::Opening
    } else if closes_group(token) {
        Group::Closing
    } else if parts_branches(token) {
        Group::Parting
    } else if is_sign(token, b";") {
        Group::Semicolon
    } else {
        Group::Plain
    }
}

/// Whether this class begins statements and no expression, or ends an empty branch or nest.
fn begins_statements(class: Class) -> bool
    ensures { result ≡ ahead.begins_statements class }
{
    match class {
        Class::LeftBrace | Class::NameOfLabel | Class::NameOfIterator | Class::NameOfStarIterator =>
            true,
        Class::Dots | Class::Stmt => true,
        Class::PatOpenOfStatements | Class::PatNestOfExpression | Class::PatNestOfStatements => {
            true
        }
        Class::PatBar | Class::PatAmp | Class::PatClose | Class::PatNestClose => true,
        _ => begins_by_keyword(class),
    }
}

/// Whether the first branch, or the content of a nest, is a list of statements.
fn is_of_statements(semicolon: bool, next: Class) -> bool
    ensures { result ≡ ahead.is_of_statements semicolon next }
{
    begins_statements(next) || semicolon
}

/// The class of a sign of patterns, given what follows it: whether its branch has a `;`, and the next class.
pub fn pattern(text: &[u8], semicolon: bool, next: Class) -> Class
    ensures { result ≡ ahead.pattern text.now semicolon next }
{
    match pattern_class(text) {
        Class::PatOpen if is_of_statements(semicolon, next) => Class::PatOpenOfStatements,
        Class::PatNestOfExpression if is_of_statements(semicolon, next) =>
            Class::PatNestOfStatements,
        class => class,
    }
}
