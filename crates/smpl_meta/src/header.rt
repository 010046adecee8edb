// Reads the heads of rules.
#![tactic(auto, using(crate::proofs::FirstLemmas::first_append))]

ghost use Rattle.std.specs.Prelude.{◌≡◌, ◌<◌, ◌^◌, length, IfOk};
ghost use Rattle.std.specs.Option.{option_copied};
ghost use Rattle.smpl_patch.specs.Faults.{first_from};
ghost use Rattle.smpl_meta.specs.Heads as spec;

use crate::earlier::Earlier;
use c_terms::{NoMemory, Text};
use smpl_lexer::{BodyLine, PatchToken, RuleText, is_at, is_mode, is_rule_name, is_word};
use smpl_patch::{Mode, PatchFault, earlier as earlier_fault};
use std::alloc::Global;

/// Whether an earlier rule or a `virtual` line has the name.
fn is_taken(earlier: &Earlier, name: &[u8]) -> bool
    requires { length earlier.now.heads < 2 ^ 32 }
    ensures { result ≡ spec.is_taken earlier.now.virtuals earlier.now.heads name.now }
{
    match earlier.number_of(name) {
        Some(_) => true,
        None => earlier.is_virtual(name),
    }
}

/// Returns the token of the rule's name, if it has one.
pub fn name_token(header: &[PatchToken]) -> Option<&PatchToken>
    ensures { option_copied result ≡ spec.name_token header.now }
{
    match header {
        [_, t, ..] => { if is_rule_name(t) { Some(t) } else { None } }
        _ => None,
    }
}

pub fn name_text(alloc: Global, name: Option<&PatchToken>) -> Result<Text, NoMemory>
    ensures { IfOk result (λ t. t ≡ spec.name_text (option_copied name.entry)) }
{
    match name {
        None => Text::from_bytes(alloc, b""),
        Some(t) => t.token.text.copy(alloc),
    }
}

pub fn with_name(
    first: Option<PatchFault>,
    earlier: &Earlier,
    name: Option<&PatchToken>,
) -> Option<PatchFault>
    requires { length earlier.now.heads < 2 ^ 32 }
    ensures { result ≡ first_from first
        (spec.name_fault earlier.now.virtuals earlier.now.heads (option_copied name.entry)) }
{
    match name {
        None => first,
        Some(t) => {
            if is_taken(earlier, t.token.text.as_bytes()) {
                Some(earlier_fault(first, PatchFault::TwiceNamed(t.at)))
            } else {
                first
            }
        }
    }
}

fn behind_on(header: &[PatchToken]) -> &[PatchToken]
    ensures { result.now ≡ spec.behind_on header.now }
{
    for i in 0..header.len() {
        if is_word(&header[i], b"on") {
            return &header[i + 1..];
        }
    }
    &header[header.len()..]
}

fn condition(tokens: &[PatchToken]) -> &[PatchToken]
    ensures { result.now ≡ spec.condition tokens.now }
{
    for i in 0..tokens.len() {
        if is_mode(&tokens[i]) || is_at(&tokens[i]) {
            return &tokens[..i];
        }
    }
    tokens
}

/// Returns the tokens of the header's condition.
pub fn depends_tokens(header: &[PatchToken]) -> &[PatchToken]
    ensures { result.now ≡ spec.depends_tokens header.now }
{
    condition(behind_on(header))
}

fn is_unknown(earlier: &Earlier, t: &PatchToken) -> bool
    requires { length earlier.now.heads < 2 ^ 32 }
    ensures { result ≡ spec.is_unknown earlier.now.virtuals earlier.now.heads t.now }
{
    is_rule_name(t) && !is_taken(earlier, t.token.text.as_bytes())
}

fn with_bad(first: Option<PatchFault>, unknown: bool, at: u32) -> Option<PatchFault>
    ensures { result ≡ first_from first (spec.unknown_fault unknown at) }
{
    if unknown {
        Some(earlier_fault(first, PatchFault::UnknownRule(at)))
    } else {
        first
    }
}

/// Returns the first of the fault so far and the faults of the names in a condition.
pub fn with_unknown(
    first: Option<PatchFault>,
    earlier: &Earlier,
    tokens: &[PatchToken],
) -> Option<PatchFault>
    requires { length earlier.now.heads < 2 ^ 32 }
    ensures { result ≡ first_from first
        (spec.unknown_faults earlier.now.virtuals earlier.now.heads tokens.now) }
{
    let mut first = first;
    for t in tokens {
        first = with_bad(first, is_unknown(earlier, t), t.at);
    }
    first
}

fn has_word(text: &[u8], tokens: &[PatchToken]) -> bool
    ensures { result ≡ spec.has_word text.now tokens.now }
{
    for t in tokens {
        if is_word(t, text) {
            return true;
        }
    }
    false
}

fn is_edit(l: &BodyLine) -> bool
    ensures { result ≡ spec.is_edit l.now }
{
    l.sign == b'-' || l.sign == b'+'
}

fn has_edit(lines: &[BodyLine]) -> bool
    ensures { result ≡ spec.has_edit lines.now }
{
    for l in lines {
        if is_edit(l) {
            return true;
        }
    }
    false
}

/// Returns the rule's mode: the one that its header gives, or else the one that follows from its lines.
pub fn mode_of(rule: &RuleText) -> Mode
    ensures { result ≡ spec.mode_of rule.now }
{
    let header = rule.header.as_slice();
    if has_word(b"exists", header) {
        Mode::Exists
    } else if has_word(b"forall", header) {
        Mode::Forall
    } else if has_edit(rule.body.as_slice()) {
        Mode::Forall
    } else {
        Mode::Exists
    }
}
