//! A text of patches has at most one first fault.
//!
//! - [`patches_have_one_fault`] is a law: its clauses hold, and it does nothing. What `read_patch` of smpl_file returns
//!   depends only on the bytes, unless it is out of memory: if it returns a fault, that is the only first fault, whatever
//!   was found on the way.
#![tactic(auto)]

ghost use Rattle.std.specs.Prelude.{◌≡◌, ℕ, List, []};
ghost use Rattle.smpl_patch.specs.declared.fault.PatchFault.{PatchFault as Fault};
ghost use Rattle.smpl_lexer.specs.declared.text.PatchText.{PatchText as Text};
ghost use Rattle.smpl_meta.specs.declared.head.RuleHead.{RuleHead as Head};
ghost use Rattle.smpl_meta.specs.Heads.{AreHeads};
ghost use Rattle.smpl_file.specs.Patches.{IsFirstRuleFault, IsSpellingFault, IsFirstFault};

use smpl_body::bodies_are_read_once;
use smpl_file::patches_are_read_once;
use smpl_lexer::patch_is_read_once;
use smpl_meta::heads_are_read_once;
use smpl_plus::plus_code_is_read_once;

/// A text has at most one first fault, and so has each phase of reading it.
///
/// - `rules`: with the heads of its rules given, a text has at most one first fault of plus code and bodies.
/// - `spelling`: bytes have at most one first fault of spelling, in whichever phase.
/// - `whole`: bytes have at most one first fault, of spelling or of meaning.
///
/// Does nothing.
pub fn patches_have_one_fault()
    ensures rules { (text : Text) (heads : List Head) (one other : Fault) → AreHeads text [] text.rules heads →
        IsFirstRuleFault text heads one → IsFirstRuleFault text heads other → one ≡ other }
    ensures spelling { (bytes : List ℕ) (one other : Fault) → IsSpellingFault bytes one →
        IsSpellingFault bytes other → one ≡ other }
    ensures whole { (bytes : List ℕ) (one other : Fault) → IsFirstFault bytes one →
        IsFirstFault bytes other → one ≡ other }
{
    patch_is_read_once();
    heads_are_read_once();
    plus_code_is_read_once();
    bodies_are_read_once();
    patches_are_read_once();
}
