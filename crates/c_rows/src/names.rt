// What a name begins at the start of a statement or an item.
ghost use Rattle.std.specs.Prelude.{◌≡◌};
ghost use Rattle.c_rows.specs.Look as ahead;

use crate::Class;
use crate::brackets::{at_name, at_sign, behind_group};
use crate::words::{holds_for_each, is_named, is_sign, is_string, is_word};
use c_terms::{Names, Token};

/// Whether the first token is `;`, `,`, `=` or `[`.
fn at_end_of_name(rest: &[Token]) -> bool
    ensures { result ≡ ahead.at_end_of_name rest.now }
{
    at_sign(rest, b";") || at_sign(rest, b",") || at_sign(rest, b"=") || at_sign(rest, b"[")
}

/// Whether the tokens begin with any number of `*`, a name, and one of `;`, `,`, `=` and `[`.
fn stars_name(rest: &[Token]) -> bool
    ensures { result ≡ ahead.stars_name rest.now }
{
    for i in 0..rest.len() {
        let token = &rest[i];
        if !is_sign(token, b"*") {
            return is_named(token) && at_end_of_name(&rest[i + 1..]);
        }
    }
    false
}

/// Whether a name with this text begins a declaration at the start of a statement, given the tokens after it.
fn declares(names: &Names, text: &[u8], rest: &[Token]) -> bool
    ensures { result ≡ ahead.declares names.now text.now rest.now }
{
    (at_name(rest) || at_sign(rest, b"*")) && names.has(text) || stars_name(rest)
}

/// Whether the first token is a name, a keyword or a metavariable.
fn at_word(rest: &[Token]) -> bool
    ensures { result ≡ ahead.at_word rest.now }
{
    match rest {
        [] => false,
        [token, ..] => is_word(token),
    }
}

/// Whether a name with this text and a `(` begin an iterator at the start of a statement, given the tokens after the
/// `(`.
fn iterates(text: &[u8], inside: &[Token]) -> bool
    ensures { result ≡ ahead.iterates text.now inside.now }
{
    let behind = behind_group(inside);
    at_sign(behind, b"{") || holds_for_each(text) && at_word(behind)
}

/// The class of a name before `(`, given the tokens after the `(`.
fn name_of_bracket(text: &[u8], inside: &[Token]) -> Class
    ensures { result ≡ ahead.name_of_bracket text.now inside.now }
{
    match (iterates(text, inside), at_sign(inside, b"*")) {
        (true, true) => Class::NameOfStarIterator,
        (true, false) => Class::NameOfIterator,
        (false, true) => Class::Name,
        (false, false) => Class::NameOfCall,
    }
}

/// The class of a name, given the tokens after it.
pub fn name(names: &Names, text: &[u8], rest: &[Token]) -> Class
    ensures { result ≡ ahead.name names.now text.now rest.now }
{
    match rest {
        [] => Class::Name,
        [token, after @ ..] => {
            if is_string(token) {
                Class::NameOfString
            } else if is_sign(token, b":") {
                Class::NameOfLabel
            } else if is_sign(token, b"(") {
                name_of_bracket(text, after)
            } else if declares(names, text, rest) {
                Class::NameOfDecl
            } else {
                Class::Name
            }
        }
    }
}
