// Texts that needn't be read.
ghost use Rattle.std.specs.Prelude.{◌≡◌, All, IfOk, true};
ghost use Rattle.run_choices.specs.declared.unread.Unread.{Unread as Choice};
ghost use Rattle.run_choices.specs.declared.unread.Unread.TheVariants as choices;
ghost use Rattle.rule_chain.specs.Passed.{LacksWord, IsUntouched};
ghost use Rattle.rule_chain.specs.RuleWords.{LacksOne};
ghost use Rattle.rule_chain.specs.RuleRun.States.{Chained};
ghost use Rattle.rule_chain.specs.Results.{AnswersState};

use crate::answers::answer;
use crate::patch_rules::PatchRules;
use crate::rule_run::FileState;
use crate::state::Applied;
use c_terms::{NoMemory, Text};
use memchr::memmem;
use rule_envs::first_file_envs;
use run_choices::Unread;
use sqlite_items::Items;
use std::alloc::Global;

/// The most words of a rule that a text is searched for.
const MOST_SEARCHES: usize = 8;

/// Whether one of the first eight words is found to stand nowhere in the bytes. Searches them once per word, up to the first
/// that is absent.
fn lacks_one(words: &[Text], bytes: &[u8]) -> bool
    ensures { result ≡ true → LacksOne bytes.now words.now }
{
    let few = words.len().min(MOST_SEARCHES);
    for number in 0..few {
        if memmem::find(bytes, words[number].as_bytes()).is_none() {
            return true;
        }
    }
    false
}

/// Whether each of these lists is found to have a word that stands nowhere in the bytes.
fn each_lacks_one(words: &[Items<Text>], bytes: &[u8]) -> bool
    ensures { result ≡ true → All (LacksOne bytes.now) words.now }
{
    for list in words {
        if !lacks_one(list.as_slice(), bytes) {
            return false;
        }
    }
    true
}

/// Whether the text needn't be read: not all notes are told, and each rule needs a word that stands nowhere in it.
///
/// Searches the text for at most eight words of each rule, up to the first rule of which none is found to be absent. Takes no
/// memory.
pub fn is_passed(rules: &PatchRules<'_>, bytes: &[u8]) -> bool
    ensures choice { result ≡ true → rules.now.unread ≡ choices.All → ⊥ }
    ensures lack { result ≡ true → All (LacksWord bytes.now) rules.now.patch.now.rules }
{
    match rules.unread {
        Unread::All => false,
        Unread::Needed => each_lacks_one(rules.words, bytes),
        Unread::None => each_lacks_one(rules.words, bytes),
    }
}

/// Returns the result for a text in which nothing happens.
pub fn untouched(alloc: Global, bytes: Vec<u8>) -> Result<Applied, NoMemory>
    ensures { IfOk result (λ applied. (choice : Choice) → (s : Chained) × (IsUntouched bytes.items s × AnswersState choice applied s)) }
{
    let findings = FileState {
        file_envs: first_file_envs(alloc)?,
        had: Items::new(alloc),
        found: Items::new(alloc),
    };
    answer(alloc, bytes, Items::new(alloc), findings)
}
