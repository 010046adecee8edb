// Where a fault is.
ghost use Rattle.std.specs.Prelude.{◌≡◌, IfOk};
ghost use Rattle.smpl_places.specs.FaultPlaces.{FaultAt};

use crate::code::code_at;
use crate::rule::rule_at;
use c_terms::NoMemory;
use smpl_patch::{PatchFault, fault_place};
use std::alloc::Global;

/// Returns the offset of the byte at which a fault of the patch is: the byte that the fault has, or the first byte of the header
/// of its rule or of the rule that declares its variable. Code that is neither an expression, nor statements, nor one function
/// is at the first piece that isn't statements by itself, or at the byte of the fault if each is. Returns `None` if the patch is
/// too long.
///
/// Costs one reading of the patch's tokens for a fault of a rule or of a variable; of its tokens, headers, declarations and the
/// code of a rule for code; and nothing for other faults. Recurses once per level of the code's trees, of which there are at
/// most 1,000. Fails only when out of memory.
pub fn fault_at(alloc: Global, bytes: &[u8], fault: &PatchFault) -> Result<Option<u32>, NoMemory>
    ensures place { IfOk result (λ at. FaultAt bytes.now fault.now at) }
{
    match fault {
        PatchFault::PatchTooLong => Ok(None),
        PatchFault::StarWithEdit(rule) => rule_at(alloc, bytes, *rule),
        PatchFault::TooLarge(rule) => rule_at(alloc, bytes, *rule),
        PatchFault::MayStayUnbound(x) => rule_at(alloc, bytes, x.rule),
        PatchFault::UnboundInPlus(x) => rule_at(alloc, bytes, x.rule),
        PatchFault::BadPattern(at) => code_at(alloc, bytes, *at),
        PatchFault::NoMemory => Ok(None),
        _ => Ok(Some(fault_place(fault))),
    }
}
