// What a token does to the pieces of code.
ghost use Rattle.std.specs.Prelude.{◌≡◌};
ghost use Rattle.smpl_places.specs.Signs as spec;

use c_terms::TokenKind;
use smpl_meta::{Placed, is_word};

/// What a token does to the pieces of code.
#[derive(Clone, Copy, Debug, PartialEq, Eq)]
pub enum Sign {
    /// `(` or `[`
    Open,
    /// `{`
    OpenBrace,
    /// `]`
    Close,
    /// `)`
    CloseParen,
    /// `}`
    CloseBrace,
    /// `;`
    Semicolon,
    /// `else`
    Else,
    /// `=` or `return`: a value follows.
    Value,
    /// Dots, or a sign of a nest or of branches.
    Mark,
    /// Any other token.
    Plain,
}

/// Whether a value follows a token.
fn begins_value(text: &[u8]) -> bool
    ensures { result ≡ spec.begins_value text.now }
{
    text == b"=".as_slice() || text == b"return".as_slice()
}

fn sign_of_text(text: &[u8]) -> Sign
    ensures { result ≡ spec.sign_of_text text.now }
{
    match text {
        b"(" => Sign::Open,
        b"[" => Sign::Open,
        b"{" => Sign::OpenBrace,
        b"]" => Sign::Close,
        b")" => Sign::CloseParen,
        b"}" => Sign::CloseBrace,
        b";" => Sign::Semicolon,
        b"else" => Sign::Else,
        _ if begins_value(text) => Sign::Value,
        _ => Sign::Plain,
    }
}

/// Returns what the token does.
pub fn sign_of(p: &Placed) -> Sign
    ensures { result ≡ spec.sign_of p.now }
{
    match p.token.kind {
        TokenKind::Dots => Sign::Mark,
        TokenKind::Pat => Sign::Mark,
        _ => sign_of_text(p.token.text.as_bytes()),
    }
}

/// Whether the token is the word `when`.
pub fn is_when(p: &Placed) -> bool
    ensures { result ≡ spec.is_when p.now }
{
    is_word(p, b"when")
}
