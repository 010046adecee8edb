// The tokens of C and of semantic patches.
ghost use Rattle.std.specs.Prelude.{◌≡◌, IfOk};
ghost use Rattle.c_terms.specs.Numbers.{meta_number, kind_number};

use crate::{NoMemory, Text};
use std::alloc::Global;

/// What a metavariable stands for.
#[derive(Clone, Copy, Debug, PartialEq, Eq)]
pub enum MetaKind {
    /// `expression`
    Expr,
    /// `expression list`
    ExprList,
    /// `identifier`
    Ident,
    /// `constant`
    Constant,
    /// `type`
    Typ,
    /// `statement`
    Stmt,
    /// `parameter list`
    Params,
}

/// What a token is. The kinds from `Meta` on occur in patches only.
#[derive(Clone, Copy, Debug, PartialEq, Eq)]
pub enum TokenKind {
    /// An identifier that is not a keyword: `main`
    Name,
    /// `while`
    Keyword,
    /// A preprocessing number: `0x1f`
    Number,
    /// `'a'`
    Char,
    /// `"text"`
    Str,
    /// `->`
    Punct,
    /// A character that begins no other token: `$`, or a quote without an end
    Stray,
    /// A name that a patch declares
    Meta(MetaKind),
    /// `...`
    Dots,
    /// A sign of patches: `\(`, `\|`, `\&`, `\)`, `<...`, `<+...`, `...>`, `...+>`
    Pat,
}

/// A token with its identity in the file's history: an id that later edits keep.
#[derive(Drop)]
pub struct Token {
    pub kind: TokenKind,
    pub text: Text,
    pub id: u64,
}

impl MetaKind {
    /// Returns the kind's place in the order of kinds of metavariables, from 0. Allocates nothing.
    pub fn number(self) -> u8
        ensures value { result ≡ meta_number self }
    {
        match self {
            MetaKind::Expr => 0,
            MetaKind::ExprList => 1,
            MetaKind::Ident => 2,
            MetaKind::Constant => 3,
            MetaKind::Typ => 4,
            MetaKind::Stmt => 5,
            MetaKind::Params => 6,
        }
    }
}

impl TokenKind {
    /// Returns the kind's place in the order of kinds, from 0. Allocates nothing.
    pub fn number(self) -> u8
        ensures value { result ≡ kind_number self }
    {
        match self {
            TokenKind::Name => 0,
            TokenKind::Keyword => 1,
            TokenKind::Number => 2,
            TokenKind::Char => 3,
            TokenKind::Str => 4,
            TokenKind::Punct => 5,
            TokenKind::Stray => 6,
            TokenKind::Meta(MetaKind::Expr) => 7,
            TokenKind::Meta(MetaKind::ExprList) => 8,
            TokenKind::Meta(MetaKind::Ident) => 9,
            TokenKind::Meta(MetaKind::Constant) => 10,
            TokenKind::Meta(MetaKind::Typ) => 11,
            TokenKind::Meta(MetaKind::Stmt) => 12,
            TokenKind::Meta(MetaKind::Params) => 13,
            TokenKind::Dots => 14,
            TokenKind::Pat => 15,
        }
    }
}

impl Token {
    /// Returns an equal token, the id included. Takes the same time at any length of the text,
    /// which the two share.
    #[inline]
    pub fn copy(&self, alloc: Global) -> Result<Token, NoMemory>
        ensures same { IfOk result (λ token. token ≡ self.now) }
    {
        let text = self.text.copy(alloc)?;
        Ok(Token {
            kind: self.kind,
            text,
            id: self.id,
        })
    }
}
