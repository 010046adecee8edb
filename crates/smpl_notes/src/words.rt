// Sets of words.
ghost use Rattle.std.specs.Prelude.{◌≡◌, [], IfOk, OnOk};
ghost use Rattle.c_terms.specs.Names.{has_name, with_name};
ghost use Rattle.smpl_notes.specs.Names as spec;

use c_terms::{NoMemory, Text};
use indexmap::IndexSet;
use smpl_lexer::{PatchToken, RuleText};
use std::alloc::Global;
use std::marker::Model;

/// Words, each once, in the order in which they were added. One look-up finds a word.
#[derive(Drop)]
pub struct Words {
    set: IndexSet<Vec<u8>>,
}

impl Model for Words {
    ghost use Rattle.std.specs.Prelude.{List, ℕ, map};

    ghost Value = { List (List ℕ) };

    ghost view = { λ words. map (λ word. word.items) words.set.keys };
}

impl Words {
    /// Returns no words. Takes no memory.
    pub fn new(alloc: Global) -> Words
        ensures { result ≡ [] }
    {
        Words {
            set: IndexSet::new(alloc),
        }
    }

    /// Whether the word is there. Takes one look-up, and no memory.
    pub fn has(&self, word: &[u8]) -> bool
        ensures { result ≡ has_name self.now word.now }
    {
        self.set.contains(word)
    }

    /// Adds a new word at the end. A known one changes nothing. Linear in the word.
    pub fn add(&mut self, alloc: Global, word: &Text) -> Result<(), NoMemory>
        ensures { OnOk result (self.new ≡ with_name self.old word.now) }
    {
        if self.has(word.as_bytes()) {
            return Ok(());
        }
        let key = Vec::from_slice(alloc, word.as_bytes())?;
        self.set.insert(key)?;
        Ok(())
    }
}

fn put_words(alloc: Global, tokens: &[PatchToken], words: &mut Words) -> Result<(), NoMemory>
    ensures { OnOk result (words.new ≡ spec.with_words words.old tokens.now) }
{
    for t in tokens {
        words.add(alloc, &t.token.text)?;
    }
    Ok(())
}

/// Returns the words of all declarations of the rules. Linear in them if no hashes of words collide.
pub fn declared_words(alloc: Global, rules: &[RuleText]) -> Result<Words, NoMemory>
    ensures { IfOk result (λ words. words ≡ spec.declared_words rules.now) }
{
    let mut words = Words::new(alloc);
    for r in rules {
        put_words(alloc, r.decls.as_slice(), &mut words)?;
    }
    Ok(words)
}
