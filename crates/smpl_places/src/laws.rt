// What holds of the places of all faults but is not the contract of any single call. The functions do nothing.
ghost use Rattle.std.specs.Prelude.{◌≡◌, List, ℕ, Option};
ghost use Rattle.smpl_patch.specs.declared.fault.PatchFault.{PatchFault as Fault};
ghost use Rattle.smpl_places.specs.FaultPlaces.{FaultAt};

use smpl_lexer::patch_is_read_once;
use smpl_meta::heads_are_read_once;

/// A fault of a patch has only one place. Does nothing.
pub fn faults_have_one_place()
    ensures { (bytes : List ℕ) (fault : Fault) (one other : Option ℕ) → FaultAt bytes fault one →
        FaultAt bytes fault other → one ≡ other }
{
    patch_is_read_once();
    heads_are_read_once();
}

/// It is impossible that [`crate::fault_at`] has nothing to return for some bytes and fault. Does nothing.
pub fn faults_have_places()
    ensures { (bytes : List ℕ) (fault : Fault) → ((at : Option ℕ) → FaultAt bytes fault at → ⊥) → ⊥ }
{}
