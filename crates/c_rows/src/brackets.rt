// What a bracket begins: a type, an expression, a declarator or parameters.
ghost use Rattle.std.specs.Prelude.{◌≡◌};
ghost use Rattle.c_rows.specs.Look as ahead;

use crate::Class;
use crate::words::{follows_cast, is_named, is_sign, is_string, is_type_word};
use c_terms::{Names, Token};

/// Whether the token is a name in `names`.
fn is_known(names: &Names, token: &Token) -> bool
    ensures { result ≡ ahead.is_known names.now token.now }
{
    is_named(token) && names.has(token.text.as_bytes())
}

/// Whether the first token is the punctuator with this text.
pub fn at_sign(rest: &[Token], text: &[u8]) -> bool
    ensures { result ≡ ahead.at_sign rest.now text.now }
{
    match rest {
        [] => false,
        [token, ..] => is_sign(token, text),
    }
}

/// Whether the first token is a name.
pub fn at_name(rest: &[Token]) -> bool
    ensures { result ≡ ahead.at_name rest.now }
{
    match rest {
        [] => false,
        [token, ..] => is_named(token),
    }
}

/// Whether the first token is a string.
pub fn at_string(rest: &[Token]) -> bool
    ensures { result ≡ ahead.at_string rest.now }
{
    match rest {
        [] => false,
        [token, ..] => is_string(token),
    }
}

/// Whether the tokens begin with any number of `*` and a `)`.
fn stars_close(rest: &[Token]) -> bool
    ensures { result ≡ ahead.stars_close rest.now }
{
    for token in rest {
        if is_sign(token, b")") {
            return true;
        }
        if !is_sign(token, b"*") {
            return false;
        }
    }
    false
}

/// Whether the tokens after a `(` begin a type: with a type word; or a name in `names`; or a name followed by one or
/// more `*` and `)`.
fn begins_type(names: &Names, inside: &[Token]) -> bool
    ensures { result ≡ ahead.begins_type names.now inside.now }
{
    match inside {
        [] => false,
        [token, rest @ ..] => {
            is_type_word(token)
                || is_known(names, token)
                || is_named(token) && at_sign(rest, b"*") && stars_close(rest)
        }
    }
}

/// Whether the tokens after a `(` are a name and `)`, followed by what follows a cast.
fn begins_unknown_cast(inside: &[Token]) -> bool
    ensures { result ≡ ahead.begins_unknown_cast inside.now }
{
    match inside {
        [name, close, next, ..] => is_named(name) && is_sign(close, b")") && follows_cast(next),
        _ => false,
    }
}

/// Whether a `(` begins a declarator in brackets when nothing of a declarator has been read yet: `*`, `(`, or a name
/// that is not in `names` comes next.
fn begins_nest(names: &Names, inside: &[Token]) -> bool
    ensures { result ≡ ahead.begins_nest names.now inside.now }
{
    match inside {
        [] => false,
        [token, ..] => {
            is_sign(token, b"*")
                || is_sign(token, b"(")
                || is_named(token) && !names.has(token.text.as_bytes())
        }
    }
}

/// Whether the token is an opening bracket.
pub fn is_opening(token: &Token) -> bool
    ensures { result ≡ ahead.is_opening token.now }
{
    is_sign(token, b"(") || is_sign(token, b"[") || is_sign(token, b"{")
}

/// Whether the token is a closing bracket.
pub fn is_closing(token: &Token) -> bool
    ensures { result ≡ ahead.is_closing token.now }
{
    is_sign(token, b")") || is_sign(token, b"]") || is_sign(token, b"}")
}

/// The tokens after the bracket that closes an opening bracket, given the tokens after the opening one.
pub fn behind_group(inside: &[Token]) -> &[Token]
    ensures { result.now ≡ ahead.behind_group 0 inside.now }
{
    let mut more = 0usize;
    for i in 0..inside.len() {
        let token = &inside[i];
        if is_opening(token) {
            more += 1;
        } else if is_closing(token) {
            if more == 0 {
                return &inside[i + 1..];
            }
            more -= 1;
        }
    }
    &[]
}

/// Whether `{` directly follows the bracket that closes a `(`, given the tokens after the `(`.
fn closes_before_brace(inside: &[Token]) -> bool
    ensures { result ≡ ahead.closes_before_brace inside.now }
{
    at_sign(behind_group(inside), b"{")
}

/// The class of a `(`, given the tokens after it.
pub fn bracket(names: &Names, inside: &[Token]) -> Class
    ensures { result ≡ ahead.bracket names.now inside.now }
{
    let nest = begins_nest(names, inside);
    if !begins_type(names, inside) && !begins_unknown_cast(inside) {
        return if nest {
            Class::ParenNest
        } else {
            Class::ParenList
        };
    }
    match (closes_before_brace(inside), nest) {
        (true, true) => Class::LiteralNest,
        (true, false) => Class::LiteralList,
        (false, true) => Class::CastNest,
        (false, false) => Class::CastList,
    }
}

/// Whether the tokens begin with a name, `)` and `{`.
fn is_name_before_brace(inside: &[Token]) -> bool
    ensures { result ≡ ahead.is_name_before_brace inside.now }
{
    match inside {
        [name, close, brace, ..] => is_named(name) && is_sign(close, b")") && is_sign(brace, b"{"),
        _ => false,
    }
}

/// The class of `sizeof` before a `(`, given the tokens after the `(`.
fn sizeof_bracket(names: &Names, inside: &[Token]) -> Class
    ensures { result ≡ ahead.sizeof_bracket names.now inside.now }
{
    if begins_type(names, inside) {
        if closes_before_brace(inside) {
            Class::SizeofExpr
        } else {
            Class::SizeofType
        }
    } else if is_name_before_brace(inside) {
        Class::Other
    } else {
        Class::SizeofExpr
    }
}

/// The class of `sizeof`: before a type in brackets that is not a literal's, before an expression, or before neither.
pub fn sizeof(names: &Names, rest: &[Token]) -> Class
    ensures { result ≡ ahead.sizeof names.now rest.now }
{
    match rest {
        [] => Class::SizeofExpr,
        [open, inside @ ..] => {
            if is_sign(open, b"(") {
                sizeof_bracket(names, inside)
            } else {
                Class::SizeofExpr
            }
        }
    }
}

/// The class of `_Alignof`: before a type in brackets, or before anything else.
pub fn alignof(names: &Names, rest: &[Token]) -> Class
    ensures { result ≡ ahead.alignof names.now rest.now }
{
    match rest {
        [] => Class::Other,
        [open, inside @ ..] => {
            if is_sign(open, b"(") && begins_type(names, inside) {
                Class::SizeofType
            } else {
                Class::Other
            }
        }
    }
}
