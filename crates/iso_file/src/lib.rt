//! Reads isomorphism files.
//!
//! - [`read_isos`] returns the isomorphisms of a file, or its first fault ([`IsoFault`]).
//!
//! The lines `Expression`, `@ is_null @`, `expression X;`, `@@`, `X == NULL <=> NULL == X => !X` are one isomorphism of
//! three sides: the first two may become each other, and both may become the third.
//!
//! A file has at most 1,048,576 bytes, and a side has at most 200 brackets open at once. Sides are read as c_expr says,
//! and its depth of calls is this crate's. What isomorphisms do to a pattern is up to other crates.
#![tactic(auto)]

ghost use Rattle.std.specs.Prelude.{IfOk, IfErr};
ghost use Rattle.iso_file.specs.Isos.{AreIsosOf, IsFileFault, OrNoMemory};

mod block;
mod blocks;
mod cut;
mod fault;
mod header;
mod held;
mod lost;
mod side;
mod tree;
mod vars;

use crate::blocks::read_blocks;
use crate::cut::lines_of;
pub use fault::IsoFault;
use smpl_patch::Iso;
use sqlite_items::Items;
use std::alloc::Global;

/// The largest number of bytes that a file may have.
const MOST_BYTES: usize = 1_048_576;

/// Returns the isomorphisms of a file, in order, or its first fault. Blocks are checked in order. Within a block, its first
/// word is checked first, then its form, then whether a variable is lost between its sides.
///
/// - `TooLong`: the file has more than 1,048,576 bytes, and nothing else is checked.
/// - `NotExpression`: the first word of a block isn't `Expression`; the offset is that of the word.
/// - `BadIso`: a block isn't of the form; the offset is that of its first word.
/// - `VariableLost`: of the least pair of sides of which the first may become the second, and the second contains a variable
///   that the first doesn't contain; the offset is the first place of such a variable in the second.
/// - `NoMemory`: out of memory; nothing is kept of the file.
pub fn read_isos(alloc: Global, bytes: &[u8]) -> Result<Items<Iso>, IsoFault>
    ensures isos { IfOk result (λ isos. AreIsosOf bytes.now isos) }
    ensures fault { IfErr result (λ f. OrNoMemory (IsFileFault bytes.now) f) }
{
    if bytes.len() > MOST_BYTES {
        return Err(IsoFault::TooLong);
    }
    let lines = lines_of(alloc, bytes)?;
    read_blocks(alloc, lines.as_slice())
}
