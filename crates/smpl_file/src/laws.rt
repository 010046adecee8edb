// A law of patches: a function whose contract holds, and that does nothing.
ghost use Rattle.std.specs.Prelude.{◌≡◌, ℕ, List};
ghost use Rattle.smpl_patch.specs.declared.fault.PatchFault.{PatchFault as Fault};
ghost use Rattle.smpl_patch.specs.declared.rule.Patch.{Patch as Whole};
ghost use Rattle.smpl_file.specs.Patches.{IsSpelled, IsSpellingFault, IsPatchOf, IsFirstFault};

use smpl_body::bodies_are_read_once;
use smpl_lexer::patch_is_read_once;
use smpl_meta::heads_are_read_once;
use smpl_plus::plus_code_is_read_once;

/// Bytes spell at most one patch. If they spell one, there is no fault of spelling, and if what its rules mean has no fault
/// either, there is no fault at all. Does nothing.
pub fn patches_are_read_once()
    ensures patch { (bytes : List ℕ) (one other : Whole) → IsSpelled bytes one →
        IsSpelled bytes other → one ≡ other }
    ensures apart { (bytes : List ℕ) (patch : Whole) (fault : Fault) → IsSpelled bytes patch →
        IsSpellingFault bytes fault → ⊥ }
    ensures faultless { (bytes : List ℕ) (patch : Whole) (fault : Fault) → IsPatchOf bytes patch →
        IsFirstFault bytes fault → ⊥ }
{
    patch_is_read_once();
    heads_are_read_once();
    plus_code_is_read_once();
    bodies_are_read_once();
}
