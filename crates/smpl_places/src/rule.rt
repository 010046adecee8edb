// The rules of a patch.
ghost use Rattle.std.specs.Prelude.{◌≡◌, ◌↔◌, IsTrue, IfOk};
ghost use Rattle.smpl_patch.specs.declared.fault.PatchFault.TheVariants as patch_fault;
ghost use Rattle.smpl_places.specs.FaultPlaces as spec;

use c_terms::NoMemory;
use smpl_lexer::{PatchText, lex_patch, patch_is_read_once};
use smpl_patch::PatchFault;
use std::alloc::Global;

/// Whether memory ran out, so that nothing is known to be wrong with the patch.
pub fn is_no_memory(fault: &PatchFault) -> bool
    ensures { IsTrue result ↔ (fault.now ≡ patch_fault.NoMemory) }
{
    matches!(fault, PatchFault::NoMemory)
}

/// Returns the text that the bytes spell, if they spell one.
fn text_in(alloc: Global, bytes: &[u8]) -> Result<Option<PatchText>, NoMemory>
    ensures { IfOk result (λ text. spec.IsTextIn bytes.now text) }
{
    // A law: does nothing. Bytes with a fault spell no text.
    patch_is_read_once();
    match lex_patch(alloc, bytes) {
        Ok(text) => Ok(Some(text)),
        Err(fault) => {
            if is_no_memory(&fault) {
                return Err(NoMemory);
            }
            Ok(None)
        }
    }
}

/// Returns the offset at which the rule with this number begins in the text, if there is such a rule.
fn rule_start(text: &Option<PatchText>, rule: u32) -> Option<u32>
    ensures { result ≡ spec.rule_start text.now rule }
{
    let text = match text {
        None => return None,
        Some(text) => text,
    };
    match text.rules.as_slice().get(rule as usize) {
        None => None,
        Some(r) => Some(r.start),
    }
}

/// Returns the offset at which the header of the rule with this number begins.
pub fn rule_at(alloc: Global, bytes: &[u8], rule: u32) -> Result<Option<u32>, NoMemory>
    ensures { IfOk result (λ at. spec.RuleAt bytes.now rule at) }
{
    let text = text_in(alloc, bytes)?;
    Ok(rule_start(&text, rule))
}
