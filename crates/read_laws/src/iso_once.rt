//! A file of isomorphisms is read in at most one way, and a patch is given its forms under them in at most one way.
//!
//! - [`isos_are_read_once`] is a law: its clauses hold, and it does nothing. What `read_isos` of iso_file returns depends
//!   only on the bytes, unless it is out of memory: a file has at most one list of isomorphisms and at most one first
//!   fault, and not both.
//! - [`patches_are_expanded_once`] is another law: what `expand` of iso_expand returns depends only on the patch and the
//!   isomorphisms, unless it is out of memory.
#![tactic(auto)]

ghost use Rattle.std.specs.Prelude.{◌≡◌, ℕ, List};
ghost use Rattle.smpl_patch.specs.declared.elem.Elem.{Elem as Part};
ghost use Rattle.smpl_patch.specs.declared.rule.Iso.{Iso as Isomorphism};
ghost use Rattle.smpl_patch.specs.declared.rule.Rule.{Rule as PatchRule};
ghost use Rattle.smpl_patch.specs.declared.rule.Patch.{Patch as Whole};
ghost use Rattle.smpl_patch.specs.Bodies.{body};
ghost use Rattle.iso_file.specs.declared.fault.IsoFault.{IsoFault as Fault};
ghost use Rattle.iso_file.specs.Isos.{AreIsosOf, IsFileFault};
ghost use Rattle.iso_expand.specs.Patches.{IsExpanded, IsFirstMany};

use c_expr::ranges_have_one_tree;

/// A file has at most one list of isomorphisms and at most one first fault, and not both.
///
/// - `isos`: two lists of isomorphisms of the same bytes are equal.
/// - `fault`: two first faults of the same bytes are equal.
/// - `apart`: bytes that spell isomorphisms have no fault.
///
/// Does nothing.
pub fn isos_are_read_once()
    ensures isos { (bytes : List ℕ) (one other : List Isomorphism) → AreIsosOf bytes one → AreIsosOf bytes other →
        one ≡ other }
    ensures fault { (bytes : List ℕ) (one other : Fault) → IsFileFault bytes one → IsFileFault bytes other → one ≡ other }
    ensures apart { (bytes : List ℕ) (isos : List Isomorphism) (fault : Fault) → AreIsosOf bytes isos →
        IsFileFault bytes fault → ⊥ }
{
    ranges_have_one_tree();
}

/// A patch has at most one patch with all forms and at most one first rule with too many, and not both.
///
/// - `bodies`: two bodies that are equal as plain data are equal.
/// - `whole`: two patches with all forms of the same patch are equal.
/// - `rule`: at most one rule of a list is the first with too many forms.
/// - `apart`: if a patch has one with all forms, no rule has too many.
///
/// Does nothing.
pub fn patches_are_expanded_once()
    ensures bodies { (one other : List Part) → body one ≡ body other → one ≡ other }
    ensures whole { (isos : List Isomorphism) (patch one other : Whole) → IsExpanded isos patch one →
        IsExpanded isos patch other → one ≡ other }
    ensures rule { (isos : List Isomorphism) (rules : List PatchRule) (one other : ℕ) → IsFirstMany isos rules one →
        IsFirstMany isos rules other → one ≡ other }
    ensures apart { (isos : List Isomorphism) (patch whole : Whole) (rule : ℕ) → IsExpanded isos patch whole →
        IsFirstMany isos patch.rules rule → ⊥ }
{}
