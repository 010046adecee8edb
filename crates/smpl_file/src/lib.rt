//! Reads whole semantic patches.
//!
//! - [`read_patch`] returns the patch that a text spells, or the first fault: by phase, then by rule, then by the order of
//!   the phase. [`spelled_patch`] leaves out the last phase, which finds variables that may stay unbound and formulas that
//!   are too large.
//! - [`patches_are_read_once`] is a law: its contract holds, and calling it does nothing.
//!
//! The phases are: the text's lines and tokens; headers and declarations, rule by rule; plus code and bodies, rule by rule,
//! a rule's plus code before its body; and what rules mean, rule by rule. A phase is reached only if the phases before it
//! find no fault.
//!
//! `@r@`, `identifier f;`, `@@`, `f();`, `@s@`, `identifier r.f;`, `@@`, `- g(f);` is a patch of two rules; the first
//! exports `f`.
//!
//! Its folders:
//!
//! - `smpl_check`: The last check of a patch once it is read: formulas that are too large, and variables that may have no
//!   value.
#![tactic(auto)]

ghost use Rattle.std.specs.Prelude.{◌<◌, ◌^◌, length, IfOk, IfErr};
ghost use Rattle.smpl_lexer.specs.Texts.{OrNoMemory};
ghost use Rattle.smpl_file.specs.Patches.{IsSpelled, IsSpellingFault, IsPatchOf, IsFirstFault};

mod depends;
mod exports;
mod laws;
mod rules;
mod smpl_check;
mod taken;

use crate::rules::rules_of;
use crate::smpl_check::check;
pub use laws::patches_are_read_once;
use smpl_lexer::lex_patch;
use smpl_meta::read_headers;
use smpl_patch::{Patch, PatchFault};
use std::alloc::Global;

/// Returns the patch that the bytes spell, or the first fault of the text, of headers and declarations, of plus code, or of
/// bodies. Doesn't check what a rule means. Costs what the parts cost.
pub fn spelled_patch(alloc: Global, bytes: &[u8]) -> Result<Patch, PatchFault>
    ensures patch { IfOk result (λ patch. IsSpelled bytes.now patch) }
    ensures few { IfOk result (λ patch. length patch.rules < 2 ^ 32) }
    ensures fault { IfErr result (λ fault. OrNoMemory (IsSpellingFault bytes.now) fault) }
{
    let text = lex_patch(alloc, bytes)?;
    let heads = read_headers(alloc, &text)?;
    rules_of(alloc, text, &heads)
}

/// Returns the patch that the bytes spell, or its first fault, by phase, rule and order. Costs what the parts cost.
///
/// - `PatchTooLong`, `BadToken`, `BadHeader`, `ScriptRule`: as described for [`lex_patch`].
/// - `BadMetavariable`, `TwiceNamed`, `UnknownRule`, `KindDiffers`: as described for [`read_headers`], if there is none of
///   the above.
/// - `StarWithEdit`, `PlusWithoutAnchor`, then `TooDeep`, `BadPattern`, `DotsAtEdge`, `MinusDots`: of the first rule
///   that has one of them, if there is none of the above.
/// - `TooLarge`, `UnboundInPlus`, `MayStayUnbound`: as described for [`check`], if there is none of the above.
/// - `NoMemory`: out of memory. Nothing is kept.
pub fn read_patch(alloc: Global, bytes: &[u8]) -> Result<Patch, PatchFault>
    ensures patch { IfOk result (λ patch. IsPatchOf bytes.now patch) }
    ensures fault { IfErr result (λ fault. OrNoMemory (IsFirstFault bytes.now) fault) }
{
    let patch = spelled_patch(alloc, bytes)?;
    check(alloc, &patch)?;
    Ok(patch)
}
