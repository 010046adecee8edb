//! Cuts semantic patches into rules, lines and tokens, or finds the first fault of their text.
//!
//! - [`lex_patch`] returns a [`PatchText`]: the names of `virtual` lines, and the rules. Each rule has its header, its
//!   declarations and the lines of its body ([`RuleText`], [`BodyLine`]). A [`PatchToken`] has its place.
//! - [`is_name`], [`is_word`], [`is_sign`], [`is_at`], [`is_rule_name`] and [`is_mode`] say what a token is.
//! - [`patch_is_read_once`] is the law that a patch has one text or one first fault. [`virtual_lines_are_spelled`] is a law
//!   on the lines before the first rule.
//!
//! The lines `@r@`, `expression x;`, `@@`, `- f(x);` are one rule: its header has the tokens `@`, `r`, `@`, its
//! declarations have `expression`, `x`, `;`, and its body has one line, with the sign `-` and five tokens.
//!
//! Nothing recurses, and everything is linear in the patch. smpl_meta reads conditions and declarations, and the crates
//! above it read the lines of a body.
#![tactic(auto)]

ghost use Rattle.std.specs.Prelude.{◌≡◌, ◌↔◌, List, ℕ, Some, None, IfOk, IfErr};
ghost use Rattle.smpl_patch.specs.declared.fault.PatchFault.{PatchFault as Fault};
ghost use Rattle.smpl_lexer.specs.declared.text.PatchText.{PatchText as Whole};
ghost use Rattle.smpl_lexer.specs.declared.token.PatchToken.{PatchToken as Word};
ghost use Rattle.smpl_lexer.specs.Headers.{virtual_stop};
ghost use Rattle.smpl_lexer.specs.Virtuals.{IsVirtual, StopsAt};
ghost use Rattle.smpl_lexer.specs.Texts.{IsTextOf, IsTextFault, OrNoMemory, AllGoOn, IsSmall};

mod cut;
mod gather;
mod line;
mod piece;
mod places;
mod reading;
mod section;
mod stop;
mod text;
mod token;

use crate::gather::finished;
use crate::reading::read_lines;
use crate::stop::with_end;
pub use piece::LineKind;
pub use places::{HeaderPlace, VirtualPlace, is_mode, is_rule_name};
pub use section::{Role, Section};
use smpl_patch::PatchFault;
use std::alloc::Global;
pub use text::{BodyLine, PatchText, RuleText};
pub use token::{PatchToken, is_at, is_name, is_sign, is_word};

/// The most bytes that a patch may have.
const MOST_BYTES: usize = 1_048_576;

/// Reads a patch into its virtual names and its rules, or finds the first fault of its text: the one at the least place,
/// and at one place the one with the least number. Linear in the patch.
///
/// - `PatchTooLong`: the patch has more than 1,048,576 bytes. Nothing else is looked for then.
/// - `BadToken`: a byte or a literal that is not a token, a `#` line, a comment over several lines, or `@` in a plus line.
/// - `BadHeader`: the token, or the end of the line, at which a header or a `virtual` line can't continue. Before the first
///   rule, also any other text. Before a rule's line `@@`, also another line that begins with `@`, and the text's end.
/// - `ScriptRule`: the `@` of a header that begins `@script`, `@initialize` or `@finalize`.
/// - `NoMemory`: out of memory. Nothing is kept of the patch.
pub fn lex_patch(alloc: Global, bytes: &[u8]) -> Result<PatchText, PatchFault>
    ensures text { IfOk result (λ text. IsTextOf bytes.now text) }
    ensures small { IfOk result (λ text. IsSmall text) }
    ensures fault { IfErr result (λ fault. OrNoMemory (IsTextFault bytes.now) fault) }
{
    if bytes.len() > MOST_BYTES {
        return Err(PatchFault::PatchTooLong);
    }
    let end = bytes.len() as u32;
    let reading = read_lines(alloc, bytes)?;
    match with_end(reading.first, reading.section, end) {
        Some(fault) => Err(fault),
        None => Ok(finished(reading.gathered, end)?),
    }
}

/// The law that a patch has one text or one first fault, and not both; that each header of a text is complete; and that a
/// text has no more rules, a rule no more lines, and a line no more bytes than a patch may have bytes. Does nothing.
pub fn patch_is_read_once()
    ensures text { (bytes : List ℕ) (one other : Whole) → IsTextOf bytes one → IsTextOf bytes other →
        one ≡ other }
    ensures fault { (bytes : List ℕ) (one other : Fault) → IsTextFault bytes one →
        IsTextFault bytes other → one ≡ other }
    ensures apart { (bytes : List ℕ) (text : Whole) (fault : Fault) → IsTextOf bytes text →
        IsTextFault bytes fault → ⊥ }
    ensures headers { (bytes : List ℕ) (text : Whole) → IsTextOf bytes text → AllGoOn text.rules }
    ensures small { (bytes : List ℕ) (text : Whole) → IsTextOf bytes text → IsSmall text }
{}

/// The law that a line before the first rule is complete exactly if it has no tokens, or `virtual` and names. Otherwise it
/// stops at the first token with which no such line begins, or at its end. Does nothing.
pub fn virtual_lines_are_spelled()
    ensures whole { (ts : List Word) (end : ℕ) → (virtual_stop ts end ≡ None) ↔ IsVirtual ts }
    ensures stop { (ts : List Word) (end at : ℕ) →
        (virtual_stop ts end ≡ Some at) ↔ StopsAt IsVirtual ts end at }
{}
