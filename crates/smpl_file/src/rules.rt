// The rules of a text, given their heads.
ghost use Rattle.std.specs.Prelude.{◌≡◌, ◌<◌, [], length, slice_get, IfOk, IfErr, IfSome};
ghost use Rattle.smpl_lexer.specs.Texts.{OrNoMemory, IsSmall};
ghost use Rattle.smpl_meta.specs.Heads.{AreHeads};
ghost use Rattle.smpl_file.specs.Exports as exported;
ghost use Rattle.smpl_file.specs.Patches as spec;

use crate::depends::copy_dep;
use crate::exports::{exports_of, taken};
use crate::taken::Taken;
use c_terms::NoMemory;
use smpl_body::read_body;
use smpl_lexer::PatchText;
use smpl_meta::{Earlier, RuleHead};
use smpl_patch::{Elem, PatToken, Patch, PatchFault, Rule, copy_decls};
use smpl_plus::anchor;
use sqlite_items::Items;
use std::alloc::Global;

/// Makes a rule from a head, a body, and what is at the tokens of its patterns.
fn made_rule(
    alloc: Global,
    head: &RuleHead,
    known: &Taken,
    tokens: Items<PatToken>,
    body: Items<Elem>,
) -> Result<Rule, NoMemory>
    ensures { IfOk result (λ rule. rule ≡ spec.made head.now known.now tokens body) }
{
    let vars = head.vars.as_slice();
    let name = head.name.copy(alloc)?;
    let depends = copy_dep(alloc, &head.depends)?;
    let exports = exports_of(alloc, known, vars)?;
    let vars = copy_decls(alloc, vars)?;
    Ok(Rule {
        name,
        depends,
        mode: head.mode,
        vars,
        exports,
        body,
        tokens,
    })
}

/// Returns the rule with a given number, or its first fault: of its plus code, then of its body.
fn rule_of(
    alloc: Global,
    text: &PatchText,
    rule: u32,
    head: &RuleHead,
    known: &Taken,
) -> Result<Rule, PatchFault>
    requires within { rule < length text.now.rules }
    requires small { IsSmall text.now }
    ensures read { IfOk result (λ made. IfSome (slice_get text.now.rules rule)
        (λ r. spec.IsRule known.now rule r head.now made)) }
    ensures fault { IfErr result (λ fault. IfSome (slice_get text.now.rules rule)
        (λ r. OrNoMemory (spec.IsRuleFault rule r head.now) fault)) }
{
    let tokens = anchor(alloc, text, rule, head)?;
    let body = read_body(alloc, text, rule, head)?;
    Ok(made_rule(alloc, head, known, tokens, body)?)
}

/// Returns the rule with this number, made from its head, or its first fault.
fn rule_at(
    alloc: Global,
    text: &PatchText,
    rule: u32,
    heads: &Earlier,
    known: &Taken,
) -> Result<Rule, PatchFault>
    requires within { rule < length text.now.rules }
    requires small { IsSmall text.now }
    ensures read { IfOk result (λ made. IfSome (slice_get text.now.rules rule) (λ r.
        IfSome (slice_get heads.now.heads rule) (λ h. spec.IsRule known.now rule r h made))) }
    ensures fault { IfErr result (λ fault. IfSome (slice_get text.now.rules rule) (λ r.
        IfSome (slice_get heads.now.heads rule) (λ h. OrNoMemory (spec.IsRuleFault rule r h) fault))) }
{
    match heads.head(rule as usize) {
        None => Err(PatchFault::NoMemory),
        Some(head) => rule_of(alloc, text, rule, head, known),
    }
}

/// Returns the rules of a text that have these heads, or the first fault of the first rule that has one.
fn rules_under(
    alloc: Global,
    text: &PatchText,
    heads: &Earlier,
    known: &Taken,
) -> Result<Items<Rule>, PatchFault>
    requires small { IsSmall text.now }
    requires heads { AreHeads text.now [] text.now.rules heads.now.heads }
    requires known { known.now ≡ exported.taken heads.now.heads }
    ensures rules { IfOk result (λ rules.
        spec.AreRules known.now 0 text.now.rules heads.now.heads rules) }
    ensures fault { IfErr result
        (λ fault. OrNoMemory (spec.IsFirstRuleFault text.now heads.now.heads) fault) }
{
    let mut rules = Items::new(alloc);
    for i in 0..text.rules.len() {
        let rule = rule_at(alloc, text, i as u32, heads, known)?;
        rules.push(rule)?;
    }
    Ok(rules)
}

/// Returns the patch of a text whose rules have these heads, or the first fault of the first rule that has one.
pub fn rules_of(alloc: Global, text: PatchText, heads: &Earlier) -> Result<Patch, PatchFault>
    requires small { IsSmall text }
    requires heads { AreHeads text [] text.rules heads.now.heads }
    ensures patch { IfOk result (λ patch. spec.AreRulesOf text heads.now.heads patch) }
    ensures fault { IfErr result
        (λ fault. OrNoMemory (spec.IsFirstRuleFault text heads.now.heads) fault) }
{
    let known = taken(alloc, heads)?;
    let rules = rules_under(alloc, &text, heads, &known)?;
    let PatchText { virtuals, rules: _ } = text;
    Ok(Patch { virtuals, rules })
}
