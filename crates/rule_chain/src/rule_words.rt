// The words that the rules of a patch need.
ghost use Rattle.std.specs.Prelude.{IfOk};
ghost use Rattle.rule_chain.specs.FileWitnesses.Lacking.{AreNeeded};
ghost use Rattle.rule_chain.specs.RuleWords.{AreWordsIn, AreRuleWords};

use c_terms::{NoMemory, Text};
use ctl_fixpoint::needed_words;
use ctl_formula::Formula;
use rule_envs::Prepared;
use run_choices::Unread;
use sqlite_items::Items;
use std::alloc::Global;

/// The most tokens of a rule whose words are looked for: the search costs the number of words times the size of the formula.
const MOST_TOKENS: usize = 1_000;

/// Returns the words that a rule's formula needs: all of them, or none if the rule has too many tokens.
pub fn words_of(alloc: Global, f: &Formula) -> Result<Items<Text>, NoMemory>
    ensures exact { IfOk result (λ words. AreWordsIn f.now words) }
    ensures needed { IfOk result (λ words. AreNeeded words f.now) }
{
    if f.tokens().len() > MOST_TOKENS {
        return Ok(Items::new(alloc));
    }
    needed_words(alloc, f)
}

/// Returns the words that each rule needs, or nothing if all notes are told, since then every text is read. For [`PatchRules`].
///
/// A rule with more than 1,000 tokens counts as one that needs no words. Costs one [`needed_words`] for each other rule. Fails
/// only when out of memory.
///
/// [`PatchRules`]: crate::PatchRules
pub fn words_of_rules(
    alloc: Global,
    unread: Unread,
    prepared: &Prepared,
) -> Result<Vec<Items<Text>>, NoMemory>
    ensures words { IfOk result (λ words. AreRuleWords unread prepared.now.rules words.items) }
{
    let mut words = Vec::new(alloc);
    if matches!(unread, Unread::All) {
        return Ok(words);
    }
    for rule in prepared.rules.as_slice() {
        words.push(words_of(alloc, &rule.formula)?)?;
    }
    Ok(words)
}
