// The words that a formula needs, and whether an item has them.
ghost use Rattle.std.specs.Prelude.{◌≡◌, ◌&&◌, ◌||◌, ℕ, List, IfOk};
ghost use Rattle.c_terms.specs.Same.{same_bytes};
ghost use Rattle.smpl_patch.specs.Patterns.{in_first};
ghost use Rattle.ctl_formula.specs.Formulas.{plain};
ghost use Rattle.ctl_fixpoint.specs.RequiredWords.Words as spec;
ghost use Rattle.ctl_fixpoint.specs.RequiredWords.Standing as standing;

use crate::required_words::needs::needs;
use crate::required_words::word::{has_word, is_word_kind};
use c_terms::{NoMemory, Text, Token, Tree, same_text};
use ctl_formula::{Formula, Node};
use smpl_patch::Pattern;
use sqlite_items::Items;
use std::alloc::Global;

fn is_among(words: &[Text], word: &[u8]) -> bool
    ensures { result ≡ spec.is_among words.now word.now }
{
    words.iter().any(|other| same_text(other.as_bytes(), word))
}

/// Adds the word to the list if it is needed and isn't in the list yet.
fn put_word(
    alloc: Global,
    f: &Formula,
    word: &Text,
    found: &mut Items<Text>,
) -> Result<(), NoMemory>
    ensures { IfOk result (λ _. (w : List ℕ) → spec.is_among found.new w
        ≡ (spec.is_among found.old w || (spec.needs w (plain f.now) && same_bytes word.now w))) }
{
    if is_among(found.as_slice(), word.as_bytes()) {
        return Ok(());
    }
    let needed = needs(alloc, f, word.as_bytes())?;
    if !needed {
        return Ok(());
    }
    let copied = word.copy(alloc)?;
    found.push(copied)?;
    Ok(())
}

fn put_token(
    alloc: Global,
    f: &Formula,
    token: &Token,
    found: &mut Items<Text>,
) -> Result<(), NoMemory>
    ensures { IfOk result (λ _. (w : List ℕ) → spec.is_among found.new w
        ≡ (spec.is_among found.old w || (spec.needs w (plain f.now) && spec.is_word w token.now))) }
{
    if !is_word_kind(token.kind) {
        return Ok(());
    }
    put_word(alloc, f, &token.text, found)
}

/// Adds the words of the tree that are needed. Recurses once per level.
fn put_words(
    alloc: Global,
    f: &Formula,
    tree: &Tree,
    found: &mut Items<Text>,
) -> Result<(), NoMemory>
    ensures { IfOk result (λ _. (w : List ℕ) → spec.is_among found.new w
        ≡ (spec.is_among found.old w || (spec.needs w (plain f.now) && spec.has_word w tree.now))) }
{
    match tree {
        Tree::Leaf(token) => put_token(alloc, f, token, found),
        Tree::Branch(_, children) => {
            for child in children.as_slice() {
                put_words(alloc, f, child, found)?;
            }
            Ok(())
        }
    }
}

fn put_first(
    alloc: Global,
    f: &Formula,
    forms: &[Tree],
    found: &mut Items<Text>,
) -> Result<(), NoMemory>
    ensures { IfOk result (λ _. (w : List ℕ) → spec.is_among found.new w
        ≡ (spec.is_among found.old w || (spec.needs w (plain f.now) && in_first (spec.has_word w) forms.now))) }
{
    match forms {
        [form, ..] => put_words(alloc, f, form, found),
        [] => Ok(()),
    }
}

fn put_pattern(
    alloc: Global,
    f: &Formula,
    p: &Pattern,
    found: &mut Items<Text>,
) -> Result<(), NoMemory>
    ensures { IfOk result (λ _. (w : List ℕ) → spec.is_among found.new w
        ≡ (spec.is_among found.old w || (spec.needs w (plain f.now) && standing.stands w p.now))) }
{
    put_first(alloc, f, p.forms.as_slice(), found)
}

fn put_node(
    alloc: Global,
    f: &Formula,
    node: &Node,
    found: &mut Items<Text>,
) -> Result<(), NoMemory>
    ensures { IfOk result (λ _. (w : List ℕ) → spec.is_among found.new w
        ≡ (spec.is_among found.old w || (spec.needs w (plain f.now) && standing.stands_at w node.now))) }
{
    match node {
        Node::Atom(p) => put_pattern(alloc, f, p, found),
        Node::BraceOpen(p, _) => put_pattern(alloc, f, p, found),
        Node::BraceClose(p, _) => put_pattern(alloc, f, p, found),
        _ => Ok(()),
    }
}

/// Returns exactly the words that the formula needs, each once, in the order in which they first occur in its table. Fails
/// only when out of memory.
///
/// Each word of the patterns' first forms is looked for in the whole table, and there in the forms of each pattern up to one
/// that lacks it: the cost is words times the table. Recurses once per level of the patterns.
pub fn needed_words(alloc: Global, f: &Formula) -> Result<Items<Text>, NoMemory>
    ensures words { IfOk result (λ words. (w : List ℕ) → spec.is_among words w ≡ spec.needs w (plain f.now)) }
{
    let mut found = Items::new(alloc);
    for i in 0..f.len() {
        put_node(alloc, f, f.node(i), &mut found)?;
    }
    Ok(found)
}

/// Whether each of the words is one of the tree's tokens. Searches the tokens once per word, up to the first match, and
/// stops at the first word without a match. Takes no memory. Recurses once per level.
pub fn may_hold(words: &[Text], tree: &Tree) -> bool
    ensures value { result ≡ spec.has_words words.now tree.now }
{
    words.iter().all(|word| has_word(word.as_bytes(), tree))
}
