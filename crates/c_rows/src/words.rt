// What a single token is.
ghost use Rattle.std.specs.Prelude.{◌≡◌, codes};
ghost use Rattle.std.specs.Str.{bytes_eq};
ghost use Rattle.c_rows.specs.Tokens as tokens;

use crate::Class;
use crate::texts::keyword_class;
use c_terms::{MetaKind, Token, TokenKind};

/// Whether the two texts have the same bytes.
pub fn is(text: &[u8], word: &[u8]) -> bool
    ensures { result ≡ bytes_eq text.now word.now }
{
    text == word
}

/// Whether the token is a name, or a metavariable for one.
pub fn is_named(token: &Token) -> bool
    ensures value { result ≡ tokens.is_named token.now }
{
    matches!(
        token.kind,
        TokenKind::Name | TokenKind::Meta(MetaKind::Ident)
    )
}

/// Whether the token is a string.
pub fn is_string(token: &Token) -> bool
    ensures { result ≡ tokens.is_string token.now }
{
    matches!(token.kind, TokenKind::Str)
}

/// Whether the token is the punctuator with this text.
pub fn is_sign(token: &Token, text: &[u8]) -> bool
    ensures { result ≡ tokens.is_sign token.now text.now }
{
    match token.kind {
        TokenKind::Punct => is(token.text.as_bytes(), text),
        _ => false,
    }
}

/// Whether the token is a storage word.
pub fn is_storage(token: &Token) -> bool
    ensures value { result ≡ tokens.is_storage token.now }
{
    match token.kind {
        TokenKind::Keyword => matches!(keyword_class(token.text.as_bytes()), Class::Storage),
        _ => false,
    }
}

/// Whether the token begins a type and is not a name: a word of a basic type, a qualifier, the keyword of a tag, or a
/// metavariable for a type.
pub fn is_type_word(token: &Token) -> bool
    ensures { result ≡ tokens.is_type_word token.now }
{
    match token.kind {
        TokenKind::Keyword => matches!(
            keyword_class(token.text.as_bytes()),
            Class::Basic | Class::Qualifier | Class::Struct | Class::Enum
        ),
        TokenKind::Meta(MetaKind::Typ) => true,
        _ => false,
    }
}

/// Whether the token is a name, a keyword or a metavariable.
pub fn is_word(token: &Token) -> bool
    ensures { result ≡ tokens.is_word token.now }
{
    matches!(
        token.kind,
        TokenKind::Name | TokenKind::Keyword | TokenKind::Meta(_)
    )
}

/// Whether the text contains `for_each`.
pub fn holds_for_each(text: &[u8]) -> bool
    ensures { result ≡ tokens.holds_for_each text.now }
{
    let mut rest = text;
    while let [_, after @ ..] = rest {
        if rest.starts_with(b"for_each") {
            return true;
        }
        rest = after;
    }
    false
}

/// Whether the token is the sign of patterns with this text.
pub fn is_pat(token: &Token, text: &[u8]) -> bool
    ensures { result ≡ tokens.is_pat token.now text.now }
{
    match token.kind {
        TokenKind::Pat => is(token.text.as_bytes(), text),
        _ => false,
    }
}

/// Whether the token may follow a name in brackets only if that is a cast or begins a literal: a name, a constant, a
/// string, a metavariable for an expression, `~`, `!`, `sizeof` or `{`.
pub fn follows_cast(token: &Token) -> bool
    ensures { result ≡ tokens.follows_cast token.now }
{
    let text = token.text.as_bytes();
    match token.kind {
        TokenKind::Name => true,
        TokenKind::Number => true,
        TokenKind::Char => true,
        TokenKind::Str => true,
        TokenKind::Meta(MetaKind::Ident) => true,
        TokenKind::Meta(MetaKind::Expr) => true,
        TokenKind::Meta(MetaKind::Constant) => true,
        TokenKind::Keyword => is(text, b"sizeof"),
        TokenKind::Punct => is(text, b"~") || is(text, b"!") || is(text, b"{"),
        _ => false,
    }
}
