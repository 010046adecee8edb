// The 201st open bracket.
ghost use Rattle.std.specs.Prelude.{◌≡◌, ◌≤◌, ◌+◌};
ghost use Rattle.smpl_body.specs.Deep as spec;

use c_rows::{MOST_OPEN, depth_after};
use smpl_meta::Placed;
use smpl_patch::PatchFault;

/// Returns the fault of the 201st open bracket, if there is one. Linear. Takes no memory.
pub(crate) fn deep_fault(placed: &[Placed]) -> Option<PatchFault>
    ensures { result ≡ spec.deep_fault placed.now }
{
    let mut depth = 0;
    for p in placed {
        depth = depth_after(&p.token, depth);
        if depth > MOST_OPEN {
            return Some(PatchFault::TooDeep(p.at));
        }
    }
    None
}
