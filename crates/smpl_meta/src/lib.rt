//! Reads the headers and the declarations of semantic patches, and numbers the tokens of their patterns.
//!
//! - [`read_headers`] returns the heads of all rules of a text, and [`read_header`] the head of one rule: its name, what it
//!   depends on, its mode, and its variables ([`RuleHead`]). [`read_decls`] reads declarations alone.
//! - [`Earlier`] is what precedes a rule: the names of `virtual` lines, and the heads of earlier rules, found by name.
//! - [`pattern_tokens`] returns the tokens of a body's patterns in order ([`Placed`]). [`made`] makes one such token.
//! - [`is_host`], [`is_word`] and [`is_differs`] say what such a token is in a `when` clause.
//! - [`headers_are_spelled`], [`headers_have_conditions`] and [`heads_are_read_once`] are laws.
//!
//! After a `virtual v` and a rule `r` that declares `x`, `@s depends on !(v && ever r)@`, `expression r.x;`,
//! `identifier f != {g, h};` is a rule named `s` that depends on `Not(Both(Defined(v), Ever(0)))`. It has the variable `x`
//! of rule 0 and its own `f`, which may be neither `g` nor `h`.
//!
//! c_expr reads typed declarations, as `struct s *x;`, and c_typing says which type they give. Besides them nothing recurses.
//! Names are found by look-ups in tables. What the lines of a body spell is left to the crates above.
#![tactic(auto)]

ghost use Rattle.std.specs.Prelude.{◌≡◌, ◌↔◌, ◌<◌, ◌^◌, ℕ, List, [], Some, None, length, IfOk, IfErr};
ghost use Rattle.smpl_patch.specs.declared.fault.PatchFault.{PatchFault as Fault};
ghost use Rattle.smpl_lexer.specs.declared.text.PatchText.{PatchText as Whole};
ghost use Rattle.smpl_lexer.specs.declared.text.RuleText.{RuleText as Rule};
ghost use Rattle.smpl_patch.specs.declared.rule.Dep.{Dep};
ghost use Rattle.smpl_lexer.specs.declared.token.PatchToken.{PatchToken as Word};
ghost use Rattle.smpl_lexer.specs.Headers.{header_stop, most_counted};
ghost use Rattle.smpl_meta.specs.declared.head.RuleHead.{RuleHead as Head};
ghost use Rattle.smpl_lexer.specs.Texts.{AllGoOn, OrNoMemory};
ghost use Rattle.smpl_meta.specs.Decls.{IsDecls, IsDeclFault};
ghost use Rattle.smpl_meta.specs.Heads.{IsHead, IsHeadFault, IsHeadIn, IsHeadFaultIn, AreHeads, IsFirstHeadFault, DependsOn, depends_tokens};
ghost use Rattle.smpl_meta.specs.Spelled.{IsHeader, StopsAt};
ghost use Rattle.smpl_meta.specs.Shunting.{head_of};

mod clause_words;
mod declaration;
mod decls;
mod depends;
mod earlier;
mod faults;
mod form;
mod head;
mod header;
mod index;
mod item;
mod known;
mod lists;
mod names;
mod nots;
mod parts;
mod patterns;
mod seen;
mod type_names;
mod typed;
mod variables;
mod vars;

use crate::decls::{Declared, declare};
use crate::depends::dep_of;
use crate::header::{depends_tokens, mode_of, name_text, name_token, with_name, with_unknown};
use c_expr::ranges_have_one_tree;
use c_terms::NoMemory;
pub use clause_words::{is_differs, is_host, is_word};
pub use earlier::Earlier;
pub use head::RuleHead;
pub use item::{DeclKind, Item, Named};
pub use patterns::{Placed, made, made_all, pattern_tokens};
use smpl_lexer::{PatchText, PatchToken, RuleText};
use smpl_patch::{PatchFault, VarDecl};
use sqlite_items::Items;
use std::alloc::Global;
pub use variables::VarTable;

/// Returns the variables that declarations declare, as variables of a rule, or the first fault of the declarations: the
/// one at the least place, and at that place the one with the least number. Linear in the tokens and their bytes if no
/// hashes of names collide; reading a typed declaration costs as much as the parsers of c_expr.
///
/// A declaration that doesn't begin with the word for a kind is typed: specifiers and declarators of C, each with a name, which
/// is an `expression` variable that takes only expressions of that type.
///
/// - `BadMetavariable`: at the first token of a malformed declaration, or at a keyword that is used as a name.
/// - `TwiceNamed`: at a name that an earlier item of the declarations has, unless both are symbols.
/// - `UnknownRule`: at the r of `r.x`, if no earlier rule is named r or r has no variable x.
/// - `KindDiffers`: at the r of `r.x`, if x has another kind in r.
/// - `NoMemory`: out of memory. Nothing is kept.
pub fn read_decls(
    alloc: Global,
    decls: &[PatchToken],
    rule: u32,
    earlier: &Earlier,
) -> Result<Items<VarDecl>, PatchFault>
    ensures vars { IfOk result (λ vars. IsDecls earlier.now.heads rule decls.now vars) }
    ensures fault { IfErr result (λ fault. OrNoMemory (IsDeclFault earlier.now.heads decls.now) fault) }
{
    let Declared { vars, first } = declare(alloc, decls, rule, earlier, None)?;
    match first {
        Some(fault) => Err(fault),
        None => Ok(vars),
    }
}

/// Makes the head of a rule that has no fault.
fn made_head(
    alloc: Global,
    r: &RuleText,
    vars: Items<VarDecl>,
    earlier: &Earlier,
) -> Result<RuleHead, NoMemory>
    requires { length earlier.now.heads < 2 ^ 32 }
    ensures { IfOk result (λ h. h ≡ head_of earlier.now.heads r.now vars) }
{
    let header = r.header.as_slice();
    let name = name_text(alloc, name_token(header))?;
    let depends = dep_of(alloc, earlier, depends_tokens(header))?;
    Ok(RuleHead {
        name,
        depends,
        mode: mode_of(r),
        vars,
    })
}

fn read_head(
    alloc: Global,
    r: &RuleText,
    rule: u32,
    earlier: &Earlier,
) -> Result<RuleHead, PatchFault>
    requires { length earlier.now.heads < 2 ^ 32 }
    ensures head { IfOk result (λ h. IsHead earlier.now.virtuals earlier.now.heads rule r.now h) }
    ensures fault { IfErr result (λ fault. OrNoMemory
        (IsHeadFault earlier.now.virtuals earlier.now.heads r.now) fault) }
{
    let header = r.header.as_slice();
    let first = with_name(None, earlier, name_token(header));
    let first = with_unknown(first, earlier, depends_tokens(header));
    let Declared { vars, first } = declare(alloc, r.decls.as_slice(), rule, earlier, first)?;
    match first {
        Some(fault) => Err(fault),
        None => Ok(made_head(alloc, r, vars, earlier)?),
    }
}

/// Returns the head of a rule, or the first fault of its header and declarations: the one at the least place, and at that
/// place the one with the least number. Linear in the header, the declarations and their bytes, and in the lines of the
/// body, on which the mode may depend, if no hashes of names collide. The contract doesn't determine the condition of a
/// header that the grammar doesn't spell; no text has such a header.
///
/// - `TwiceNamed`: at the rule's name, if an earlier rule or a `virtual` line has it.
/// - `UnknownRule`: at a name after `depends on` that is neither an earlier rule nor virtual.
/// - The faults of declarations, as listed for [`read_decls`].
/// - `NoMemory`: out of memory. Nothing is kept.
pub fn read_header(
    alloc: Global,
    text: &PatchText,
    rule: u32,
    earlier: &Earlier,
) -> Result<RuleHead, PatchFault>
    requires within { rule < length text.now.rules }
    requires virtuals { earlier.now.virtuals ≡ text.now.virtuals }
    requires earlier { length earlier.now.heads ≡ rule }
    ensures head { IfOk result (λ h. IsHeadIn text.now earlier.now.heads rule h) }
    ensures fault { IfErr result
        (λ fault. OrNoMemory (IsHeadFaultIn text.now earlier.now.heads rule) fault) }
{
    let rules = text.rules.as_slice();
    read_head(alloc, &rules[rule as usize], rule, earlier)
}

/// Returns the heads of all rules of a text, or the first fault of the first rule that has one, as described for
/// [`read_header`]. Linear in the text if no hashes of names collide.
pub fn read_headers(alloc: Global, text: &PatchText) -> Result<Earlier, PatchFault>
    requires { length text.now.rules < 2 ^ 32 }
    ensures heads { IfOk result (λ e. AreHeads text.now [] text.now.rules e.heads) }
    ensures fault { IfErr result (λ fault. OrNoMemory (IsFirstHeadFault text.now) fault) }
{
    let rules = text.rules.as_slice();
    let mut earlier = Earlier::of(alloc, text.virtuals.as_slice())?;
    for i in 0..rules.len() {
        let r = &rules[i];
        let head = read_head(alloc, r, i as u32, &earlier)?;
        earlier = earlier.with(alloc, head)?;
    }
    Ok(earlier)
}

/// A header for which `header_stop` reports no stop has exactly one condition. Does nothing.
pub fn headers_have_conditions()
    ensures some { (earlier : List Head) (ts : List Word) (end : ℕ) → header_stop ts end ≡ None →
        (d : Dep) × DependsOn earlier (depends_tokens ts) d }
    ensures once { (earlier : List Head) (ts : List Word) (one other : Dep) →
        DependsOn earlier ts one → DependsOn earlier ts other → one ≡ other }
{}

/// A header has no stop exactly if the grammar spells it with at most 200 names, `!` and `(` in its condition. Otherwise
/// its stop is the first token that no header of the grammar can have there, the 201st counted token, or its end. Does
/// nothing.
pub fn headers_are_spelled()
    ensures whole { (earlier : List Head) (ts : List Word) (end : ℕ) →
        (header_stop ts end ≡ None) ↔ IsHeader earlier most_counted ts }
    ensures stop { (earlier : List Head) (ts : List Word) (end at : ℕ) →
        (header_stop ts end ≡ Some at) ↔ StopsAt earlier ts end at }
{}

/// Rules whose headers have no stop have at most one list of heads after given earlier heads, and no rule has both a head
/// and a fault. A text of such rules has at most one first fault, and never both heads and a fault. Does nothing.
pub fn heads_are_read_once()
    ensures once { (text : Whole) (earlier : List Head) (rules : List Rule) (one other : List Head) →
        AllGoOn rules → AreHeads text earlier rules one → AreHeads text earlier rules other → one ≡ other }
    ensures apart { (virtuals : List (List ℕ)) (earlier : List Head) (rule : ℕ) (r : Rule)
        (h : Head) (fault : Fault) →
        IsHead virtuals earlier rule r h → IsHeadFault virtuals earlier r fault → ⊥ }
    ensures first { (text : Whole) (one other : Fault) → AllGoOn text.rules →
        IsFirstHeadFault text one → IsFirstHeadFault text other → one ≡ other }
    ensures alone { (text : Whole) (heads : List Head) (fault : Fault) → AllGoOn text.rules →
        AreHeads text [] text.rules heads → IsFirstHeadFault text fault → ⊥ }
{
    ranges_have_one_tree();
}
