//! Reads the bodies of rules: their pattern tokens become elements.
//!
//! - [`read_body`] returns a rule's body as elements, or its first fault.
//! - [`bodies_are_read_once`], [`brackets_are_counted`], [`code_has_no_code`] and [`patterns_are_numbered`] are laws: their
//!   contracts hold, and calling them does nothing.
//!
//! A body is read as an expression if it can be one, else as statements, else as one function. Code after `when !=` is an
//! expression or statements. The faults are, in this order: more than 200 brackets are open at once; nothing spells the
//! body, or a `when` is malformed; dots or a nest are first or last in a sequence; dots that are statements, or a sign of a
//! nest, are on a `-` line.
//!
//! The three lines `f();`, `... when != g(x)` and `h();` are an atom, a gap with one piece of code, and an atom.
//!
//! Its folders:
//!
//! - `smpl_when`: Splits the body of a rule into its own tokens and its `when` clauses.
//! - `smpl_elem`: Reads the trees of patterns as elements of bodies.
#![tactic(auto)]

ghost use Rattle.std.specs.Prelude.{◌<◌, ◌^◌, length, slice_get, IfOk, IfErr, IfSome};
ghost use Rattle.smpl_lexer.specs.Texts.{OrNoMemory};
ghost use Rattle.smpl_meta.specs.Patterns.{pattern_tokens as tokens_of};
ghost use Rattle.smpl_body.specs.Bodies.{IsBody, IsBodyFault};

mod body;
mod clauses;
mod deep;
mod dots;
mod edges;
mod faults;
mod fits;
mod laws;
mod reading;
pub mod smpl_elem;
mod smpl_when;
mod spelled;

use crate::body::read;
pub use laws::{
    bodies_are_read_once, brackets_are_counted, code_has_no_code, patterns_are_numbered,
};
pub use reading::Form;
use smpl_lexer::PatchText;
use smpl_meta::{RuleHead, pattern_tokens};
use smpl_patch::{Elem, PatchFault};
pub use smpl_when::{OpenCode, Where, bodies_are_parted_once, own_tokens_are_main};
use sqlite_items::Items;
use std::alloc::Global;

/// Returns the elements of a rule's body, or its first fault. Linear in the body, except that after each `(` and `,` the
/// parser first reads what may be a type, as c_expr describes. Recurses once per level of the body's trees, of which there
/// are at most 1,000.
pub fn read_body(
    alloc: Global,
    text: &PatchText,
    rule: u32,
    head: &RuleHead,
) -> Result<Items<Elem>, PatchFault>
    requires within { rule < length text.now.rules }
    requires short { IfSome (slice_get text.now.rules rule) (λ r. length r.body < 2 ^ 32) }
    ensures body { IfOk result (λ es. IfSome (slice_get text.now.rules rule)
        (λ r. IsBody (tokens_of head.now.vars r.body) es)) }
    ensures fault { IfErr result (λ fault. IfSome (slice_get text.now.rules rule)
        (λ r. OrNoMemory (IsBodyFault (tokens_of head.now.vars r.body) r.end) fault)) }
{
    let rules = text.rules.as_slice();
    let r = &rules[rule as usize];
    let placed = pattern_tokens(alloc, head.vars.as_slice(), r.body.as_slice())?;
    read(alloc, placed.as_slice(), r.end)
}
