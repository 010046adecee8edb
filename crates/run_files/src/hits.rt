// Whether a file is hit.
ghost use Rattle.std.specs.Prelude.{◌≡◌, ◌&&◌, false, map, nat_le, length, slice_get, unwrap_or, IfOk};
ghost use Rattle.std.specs.List.{list_any};
ghost use Rattle.run_choices.specs.declared.unread.Unread.{Unread};
ghost use Rattle.rule_chain.specs.RuleRun.States.{Chained};
ghost use Rattle.rule_chain.specs.Results.{AnswersState};
ghost use Rattle.run_files.specs.Treatment as spec;

use c_terms::{NoMemory, same_text};
use rule_chain::Applied;
use smpl_patch::{Mark, Patch, Rule, RuleWitness};
use sqlite_items::at;
use std::alloc::Global;

fn is_star(mark: Mark) -> bool
    ensures { result ≡ spec.is_star mark }
{
    matches!(mark, Mark::Star)
}

/// Whether a token of the rule has a star.
fn has_star(rule: &Rule) -> bool
    ensures { result ≡ spec.has_star rule.now }
{
    rule.tokens
        .as_slice()
        .iter()
        .any(|token| is_star(token.mark))
}

/// Returns for each rule whether it has a star.
fn starred_rules(alloc: Global, rules: &[Rule]) -> Result<Vec<bool>, NoMemory>
    ensures { IfOk result (λ starred. starred.items ≡ map spec.has_star rules.now) }
{
    let mut starred = Vec::with_capacity(alloc, rules.len())?;
    for rule in rules {
        starred.push(has_star(rule))?;
    }
    Ok(starred)
}

/// Whether the witness is one of a rule that has a star, given which have one.
fn is_starred(starred: &[bool], witness: &RuleWitness) -> bool
    ensures { result ≡ unwrap_or (slice_get starred.now witness.now.rule) false }
{
    at(starred, witness.rule as usize).copied().unwrap_or(false)
}

/// Whether one of the witnesses is one of a rule that has a star, given which have one.
fn some_starred(starred: &[bool], witnesses: &[RuleWitness]) -> bool
    ensures { result ≡ list_any (λ w. unwrap_or (slice_get starred.now w.rule) false) witnesses.now }
{
    witnesses.iter().any(|w| is_starred(starred, w))
}

/// Whether one of the witnesses is one of a rule that has a star.
fn has_starred(alloc: Global, patch: &Patch, witnesses: &[RuleWitness]) -> Result<bool, NoMemory>
    ensures { IfOk result (λ has. has ≡ list_any (spec.is_starred patch.now) witnesses.now) }
{
    let table = starred_rules(alloc, patch.rules.as_slice())?;
    let starred = table.as_slice();
    Ok(some_starred(starred, witnesses))
}

/// Whether a file with these bytes is hit, if that is asked for: its text differs from what was loaded, or a witness is one of
/// a rule that has a star.
///
/// Linear in the text, in the tokens of the patch and in the witnesses. Fails only when out of memory.
pub fn is_checked_hit(
    alloc: Global,
    check: bool,
    patch: &Patch,
    bytes: &[u8],
    applied: &Applied,
) -> Result<bool, NoMemory>
    ensures { IfOk result (λ hit. (unread : Unread) (s : Chained) → AnswersState unread applied.now s →
        hit ≡ (check && spec.is_hit patch.now bytes.now s)) }
{
    if !check {
        return Ok(false);
    }
    if !same_text(bytes, &applied.bytes) {
        return Ok(true);
    }
    has_starred(alloc, patch, applied.witnesses.as_slice())
}

/// Whether the rules found something.
pub fn has_witness(applied: &Applied) -> bool
    ensures { (unread : Unread) (s : Chained) → AnswersState unread applied.now s → result ≡ nat_le 1 (length s.found) }
{
    !applied.witnesses.is_empty()
}
