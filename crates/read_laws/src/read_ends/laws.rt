// Laws on the end of reading: what bytes spell, or their first fault. The functions do nothing.
ghost use Rattle.std.specs.Prelude.{◌⊎◌, ℕ, List};
ghost use Rattle.smpl_patch.specs.declared.rule.Iso.{Iso as Isomorphism};
ghost use Rattle.smpl_patch.specs.declared.rule.Patch.{Patch as Whole};
ghost use Rattle.smpl_patch.specs.declared.fault.PatchFault.{PatchFault as Fault};
ghost use Rattle.smpl_file.specs.Patches.{IsPatchOf, IsFirstFault};
ghost use Rattle.iso_file.specs.declared.fault.IsoFault.{IsoFault as FileFault};
ghost use Rattle.iso_file.specs.Isos.{AreIsosOf, IsFileFault};
ghost use Rattle.iso_expand.specs.Patches.{IsExpanded, IsFirstMany};

use c_lexer::every_text_is_cut;

/// It is impossible that bytes spell nothing and have no first fault. Whether tokens have a tree isn't decided here, so the
/// law doesn't say which case holds.
///
/// - `patch`: it is impossible that bytes spell no patch without faults of meaning and have no first fault.
/// - `isos`: it is impossible that bytes spell no isomorphisms and have no first fault.
///
/// Does nothing.
pub fn bytes_are_read()
    ensures patch { (bytes : List ℕ) → ((patch : Whole) → IsPatchOf bytes patch → ⊥) →
        ((fault : Fault) → IsFirstFault bytes fault → ⊥) → ⊥ }
    ensures isos { (bytes : List ℕ) → ((isos : List Isomorphism) → AreIsosOf bytes isos → ⊥) →
        ((fault : FileFault) → IsFileFault bytes fault → ⊥) → ⊥ }
{
    every_text_is_cut();
}

/// Under any isomorphisms, a patch has a patch with all forms, or a first rule with too many. Does nothing.
pub fn patches_get_their_forms()
    ensures { (isos : List Isomorphism) (patch : Whole) →
        ((whole : Whole) × IsExpanded isos patch whole) ⊎ ((rule : ℕ) × IsFirstMany isos patch.rules rule) }
{}
