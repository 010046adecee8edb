//! Laws of the places of a patch's faults.
//!
//! - [`each_fault_has_a_place`]: the first fault of a patch has a byte, unless the patch is too long.
//!
//! The function does nothing.
#![tactic(auto)]

ghost use Rattle.std.specs.Prelude.{◌≡◌, ℕ, List, Option, None};
ghost use Rattle.smpl_patch.specs.declared.fault.PatchFault.{PatchFault as Fault};
ghost use Rattle.smpl_patch.specs.declared.fault.PatchFault.TheVariants as patch_fault;
ghost use Rattle.smpl_file.specs.Patches.{IsFirstFault};
ghost use Rattle.smpl_places.specs.FaultPlaces.{FaultAt};

use smpl_lexer::patch_is_read_once;

/// If the first fault of a patch is at no byte, the patch is too long. A fault of a rule or of a variable is at a rule of the
/// text, and that rule is there. Does nothing.
pub fn each_fault_has_a_place()
    ensures { (bytes : List ℕ) (fault : Fault) (at : Option ℕ) → IsFirstFault bytes fault → FaultAt bytes fault at →
        at ≡ None → fault ≡ patch_fault.PatchTooLong }
{
    patch_is_read_once();
}
