// Tokens as a reader sees them: each with the class of the list that it begins.
ghost use Rattle.std.specs.Prelude.{◌≡◌};
ghost use Rattle.c_rows.specs.Seen.{Seen, front, front_typed};
ghost use Rattle.c_rows.specs.Spells.{member_kind};
ghost use Rattle.c_rows.specs.Range.{leads_member};

use crate::words::is_sign;
use crate::{Class, Kind};
use c_terms::Token;
use std::marker::Model;

/// A token with the class of the list that it begins.
#[derive(Drop)]
pub struct Seen<'a> {
    token: &'a Token,
    class: Class,
    typed: bool,
}

impl<'a> Model for Seen<'a> {
    ghost use Rattle.c_rows.specs.Seen.{Seen};

    ghost Value = { Seen };

    ghost view = { λ s. record { token = s.token.now; class = s.class; typed = s.typed } };
}

impl<'a> Seen<'a> {
    /// Returns the token with its class. `typed` says that no expression can be a member of an argument list here.
    pub fn new(token: &'a Token, class: Class, typed: bool) -> Seen<'a>
        ensures value { result ≡ record { token = token.now; class = class; typed = typed } }
    {
        Seen {
            token,
            class,
            typed,
        }
    }

    /// Returns the token. Allocates no memory.
    pub fn token(&self) -> &'a Token
        ensures value { result.now ≡ self.now.token }
    {
        self.token
    }

    /// Returns the class of the list that the token begins. Allocates no memory.
    pub fn class(&self) -> Class
        ensures value { result ≡ self.now.class }
    {
        self.class
    }

    /// Whether no expression can be a member of an argument list here. Allocates no memory.
    pub fn is_typed(&self) -> bool
        ensures value { result ≡ self.now.typed }
    {
        self.typed
    }
}

/// Returns the class of the first token, or [`Class::End`] if there is none. Allocates no memory.
pub fn front(rest: &[Seen]) -> Class
    ensures value { result ≡ front rest.now }
{
    match rest {
        [] => Class::End,
        [seen, ..] => seen.class(),
    }
}

/// Whether no expression that is a member of an argument list can begin at the first token; `false` if there is none.
/// Allocates no memory.
pub fn front_typed(rest: &[Seen]) -> bool
    ensures value { result ≡ front_typed rest.now }
{
    match rest {
        [] => false,
        [seen, ..] => seen.is_typed(),
    }
}

/// Returns what a member of an argument list is: a type if no expression can be there, otherwise an expression without
/// commas.
pub fn member_kind(typed: bool) -> Kind
    ensures value { result ≡ member_kind typed }
{
    if typed {
        Kind::TypeArg
    } else {
        Kind::AssignLevel
    }
}

/// Whether a member of an argument list may begin after this token.
pub fn leads_member(token: &Token) -> bool
    ensures value { result ≡ leads_member token.now }
{
    is_sign(token, b"(") || is_sign(token, b",")
}
