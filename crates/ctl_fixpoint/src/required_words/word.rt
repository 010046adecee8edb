// Words among the tokens of a tree.
ghost use Rattle.std.specs.Prelude.{◌≡◌};
ghost use Rattle.ctl_fixpoint.specs.RequiredWords.Words as spec;

use c_terms::{Token, TokenKind, Tree, same_text};

/// Whether tokens of the kind are words: names, keywords, numbers and literals.
pub fn is_word_kind(kind: TokenKind) -> bool
    ensures { result ≡ spec.is_word_kind kind }
{
    match kind {
        TokenKind::Name => true,
        TokenKind::Keyword => true,
        TokenKind::Number => true,
        TokenKind::Char => true,
        TokenKind::Str => true,
        _ => false,
    }
}

/// Whether the token is the word.
pub fn is_word(word: &[u8], token: &Token) -> bool
    ensures { result ≡ spec.is_word word.now token.now }
{
    is_word_kind(token.kind) && same_text(token.text.as_bytes(), word)
}

/// Whether one of the tree's tokens is the word. Stops at the first match. Recurses once per level.
pub fn has_word(word: &[u8], tree: &Tree) -> bool
    ensures { result ≡ spec.has_word word.now tree.now }
{
    match tree {
        Tree::Leaf(token) => is_word(word, token),
        Tree::Branch(_, children) => {
            for child in children.as_slice() {
                if has_word(word, child) {
                    return true;
                }
            }
            false
        }
    }
}
