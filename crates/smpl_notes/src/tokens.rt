// What single tokens are.
ghost use Rattle.std.specs.Prelude.{◌≡◌};
ghost use Rattle.smpl_notes.specs.Tokens as spec;

use c_terms::{MetaKind, Token, TokenKind, same_text};

fn is_name(kind: TokenKind) -> bool
    ensures { result ≡ spec.is_name kind }
{
    matches!(kind, TokenKind::Name)
}

fn is_number(kind: TokenKind) -> bool
    ensures { result ≡ spec.is_number kind }
{
    matches!(kind, TokenKind::Number)
}

fn is_punct(kind: TokenKind) -> bool
    ensures { result ≡ spec.is_punct kind }
{
    matches!(kind, TokenKind::Punct)
}

pub fn is_dots(kind: TokenKind) -> bool
    ensures { result ≡ spec.is_dots kind }
{
    matches!(kind, TokenKind::Dots)
}

/// Whether a token of this kind is a name, or a metavariable for one.
pub fn may_be_name(kind: TokenKind) -> bool
    ensures { result ≡ spec.may_be_name kind }
{
    matches!(kind, TokenKind::Name | TokenKind::Meta(MetaKind::Ident))
}

/// Whether the token is `-`.
pub fn is_minus(token: &Token) -> bool
    ensures { result ≡ spec.is_minus token.now }
{
    is_punct(token.kind) && same_text(token.text.as_bytes(), b"-")
}

/// Whether the token is `==` or `!=`.
pub fn is_equality(token: &Token) -> bool
    ensures { result ≡ spec.is_equality token.now }
{
    is_punct(token.kind)
        && (same_text(token.text.as_bytes(), b"==") || same_text(token.text.as_bytes(), b"!="))
}

/// Whether the token is `NULL` or `0`.
pub fn is_zero(token: &Token) -> bool
    ensures { result ≡ spec.is_zero token.now }
{
    is_name(token.kind) && same_text(token.text.as_bytes(), b"NULL")
        || is_number(token.kind) && same_text(token.text.as_bytes(), b"0")
}

fn is_letter(byte: u8) -> bool
    ensures { result ≡ spec.is_letter byte }
{
    byte >= b'A' && byte <= b'Z' || byte >= b'a' && byte <= b'z'
}

fn is_short(text: &[u8]) -> bool
    ensures { result ≡ spec.is_short text.now }
{
    match text {
        [a] => is_letter(*a),
        [a, b] => is_letter(*a) && is_letter(*b),
        _ => false,
    }
}

/// Whether the token is a name of one or two letters, and no metavariable.
pub fn is_short_name(token: &Token) -> bool
    ensures { result ≡ spec.is_short_name token.now }
{
    is_name(token.kind) && is_short(token.text.as_bytes())
}
