// The words of `when` clauses, and the tokens that clauses follow.
ghost use Rattle.std.specs.Prelude.{◌≡◌};
ghost use Rattle.smpl_meta.specs.Patterns as patterns;

use crate::patterns::Placed;
use c_terms::TokenKind;

/// Whether the token is one that `when` clauses follow: dots or the end of a nest. Takes no memory.
pub fn is_host(p: &Placed) -> bool
    ensures { result ≡ patterns.is_host_of p.now.token.kind p.now.token.text }
{
    match p.token.kind {
        TokenKind::Dots => true,
        TokenKind::Pat => {
            let text = p.token.text.as_bytes();
            text == b"...>".as_slice() || text == b"...+>".as_slice()
        }
        _ => false,
    }
}

/// Whether the token is the word, even if it is declared as a metavariable. Takes no memory; linear in the word.
pub fn is_word(p: &Placed, text: &[u8]) -> bool
    ensures { result ≡ patterns.is_word text.now p.now }
{
    match p.token.kind {
        TokenKind::Name => p.token.text.as_bytes() == text,
        TokenKind::Meta(_) => p.token.text.as_bytes() == text,
        _ => false,
    }
}

/// Whether the token is `!=`. Takes no memory.
pub fn is_differs(p: &Placed) -> bool
    ensures { result ≡ patterns.is_differs p.now }
{
    match p.token.kind {
        TokenKind::Punct => p.token.text.as_bytes() == b"!=".as_slice(),
        _ => false,
    }
}
