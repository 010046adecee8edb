// Braces: tokens of patterns, and the braces of nodes.
ghost use Rattle.std.specs.Prelude.{◌≡◌};
ghost use Rattle.std.specs.Option.{option_copied};
ghost use Rattle.c_terms.specs.declared.tree.Tree.{out-Tree};
ghost use Rattle.c_terms.specs.Lists as lists;
ghost use Rattle.pat_match.specs.Spots as spec;

use c_terms::{Token, TokenKind, Tree, child, same_text};
use cfg_build::NodeKind;

fn is_punct(kind: TokenKind) -> bool
    ensures { result ≡ lists.is_punct kind }
{
    match kind {
        TokenKind::Punct => true,
        _ => false,
    }
}

pub fn is_open_brace(token: &Token) -> bool
    ensures { result ≡ spec.is_open_brace token.now }
{
    is_punct(token.kind) && same_text(token.text.as_bytes(), b"{")
}

pub fn is_close_brace(token: &Token) -> bool
    ensures { result ≡ spec.is_close_brace token.now }
{
    is_punct(token.kind) && same_text(token.text.as_bytes(), b"}")
}

fn last_child(tree: &Tree) -> Option<&Tree>
    ensures { option_copied result ≡ spec.last_at (out-Tree tree.now) }
{
    match tree {
        Tree::Leaf(_) => None,
        Tree::Branch(_, children) => {
            if children.len() == 0 {
                None
            } else {
                children.get(children.len() - 1)
            }
        }
    }
}

pub fn open_brace(kind: NodeKind, tree: &Tree) -> Option<&Tree>
    ensures { option_copied result ≡ spec.open_brace kind tree.now }
{
    match kind {
        NodeKind::OpenBrace => child(tree, 0),
        _ => None,
    }
}

pub fn close_brace(kind: NodeKind, tree: &Tree) -> Option<&Tree>
    ensures { option_copied result ≡ spec.close_brace kind tree.now }
{
    match kind {
        NodeKind::CloseBrace => last_child(tree),
        _ => None,
    }
}
