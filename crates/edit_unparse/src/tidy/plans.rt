// The plan of edits.
ghost use Rattle.std.specs.Prelude.{IfOk};
ghost use Rattle.edit_unparse.specs.Tidy.Plans.{IsPlan};

use crate::tidy::flags::{Extent, Owners};
use crate::tidy::joints::{joints, token_pieces};
use crate::tidy::places::placed_inserts;
use crate::tidy::plan::Plan;
use c_lexer::Lexed;
use c_terms::NoMemory;
use edit_marks::EditList;
use std::alloc::Global;

/// Returns which tokens go, and where inserts stand. `gone` are the statements of which nothing stays, and `depths` says for
/// each edit how deep the statement of its pattern is. Takes n log n steps for n inserts, and else is linear in the text and in
/// what the edits and statements have.
pub fn plan_of(
    alloc: Global,
    lexed: &Lexed,
    edits: &EditList,
    gone: &[Extent],
    depths: &[u32],
) -> Result<Plan, NoMemory>
    ensures { IfOk result (IsPlan lexed.now edits.now gone.now depths.now) }
{
    let pieces = token_pieces(alloc, lexed)?;
    let count = pieces.len();
    let all = edits.edits();
    let owners = Owners::of(alloc, count, all, gone)?;
    let joined = joints(alloc, lexed, &owners)?;
    let goes = owners.removed.as_slice();
    let flags = joined.as_slice();
    let inserts = placed_inserts(alloc, edits, goes, flags, depths)?;
    let Owners { removed, .. } = owners;
    Ok(Plan {
        pieces,
        removed,
        joined,
        inserts,
    })
}
