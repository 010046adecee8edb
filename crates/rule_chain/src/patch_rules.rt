// The rules of a patch, ready to run.
ghost use Rattle.std.specs.Prelude.{◌≡◌, ◌<◌, ◌^◌, length, slice_index_or};
ghost use Rattle.std.specs.List.{AllZip};
ghost use Rattle.ctl_formula.specs.contracts.formula.Formula as formula;
ghost use Rattle.rule_envs.specs.RuleFormulas.Prepared.{IsPrepared, ArePrepared};
ghost use Rattle.rule_chain.specs.Required.{MayRun};
ghost use Rattle.rule_chain.specs.RuleWords.{AreRuleWords, rule_words-prop};
ghost use Rattle.rule_chain.specs.OneProof.{is_prepared-prop, are_prepared-prop, may_run-prop, all_may_run-prop};

use c_terms::Text;
use rule_envs::{Prepared, PreparedRule};
use run_choices::Unread;
use smpl_patch::{Patch, Rule};
use sqlite_items::Items;

/// The rules of a patch, ready to run.
#[derive(Clone, Copy)]
pub struct PatchRules<'p> {
    pub patch: &'p Patch,
    /// What [`rule_envs::prepare`] returned for the patch.
    pub prepared: &'p Prepared,
    /// The virtual names that are defined.
    pub defined: &'p [Text],
    /// Whether the new texts are tidied.
    pub tidy: bool,
    /// Which of the items that can't be read are told of. Unless all are, a text in which each rule lacks a word may be passed over.
    pub unread: Unread,
    /// What [`words_of_rules`](crate::words_of_rules) returned for these.
    pub words: &'p [Items<Text>],
    pub ghost few: { length patch.now.rules < 2 ^ 32 },
    pub ghost prepared_are: { ArePrepared patch.now.rules prepared.now.rules } by { are_prepared-prop formula.the_row.coded
        patch.now.rules prepared.now.rules },
    pub ghost may: { AllZip MayRun patch.now.rules prepared.now.rules } by { all_may_run-prop patch.now.rules prepared.now.rules },
    pub ghost words_are: { AreRuleWords unread prepared.now.rules words.now } by { rule_words-prop unread prepared.now.rules
        words.now },
}

/// A rule of a patch, ready to run.
#[derive(Clone, Copy)]
pub struct ReadyRule<'p> {
    /// The number of the rule, from 0.
    pub number: u32,
    pub rule: &'p Rule,
    /// What [`rule_envs::prepare`] returned for the rule.
    pub prepared: &'p PreparedRule,
    /// The virtual names that are defined.
    pub defined: &'p [Text],
    /// Whether the new text is tidied.
    pub tidy: bool,
    pub ghost prepared_is: { IsPrepared rule.now prepared.now } by { is_prepared-prop formula.the_row.coded rule.now prepared.now },
    pub ghost may: { MayRun rule.now prepared.now } by { may_run-prop rule.now prepared.now },
}

impl<'p> PatchRules<'p> {
    /// Returns the number of rules.
    pub(crate) fn count(&self) -> usize
        ensures count { result ≡ length self.now.patch.now.rules }
    {
        self.patch.rules.as_slice().len()
    }

    /// Returns the rule with this number.
    pub(crate) fn at(&self, number: usize) -> ReadyRule<'p>
        requires within { number < length self.now.patch.now.rules }
        ensures number { result.number ≡ number }
        ensures rule { result.rule.now ≡ slice_index_or self.now.patch.now.rules number result.rule.now }
        ensures defined { result.defined.now ≡ self.now.defined.now }
        ensures tidy { result.tidy ≡ self.now.tidy }
    {
        let rules = self.patch.rules.as_slice();
        let prepared = self.prepared.rules.as_slice();
        ReadyRule {
            number: number as u32,
            rule: &rules[number],
            prepared: &prepared[number],
            defined: self.defined,
            tidy: self.tidy,
        }
    }
}
