// The blocks of a file.
ghost use Rattle.std.specs.Prelude.{◌≡◌, ◌||◌, ◌&&◌, [], ◌∷◌, IfOk, IfErr};
ghost use Rattle.iso_file.specs.Lines.{filled};
ghost use Rattle.iso_file.specs.Blocks as spec;
ghost use Rattle.iso_file.specs.Blocks.{blocks};
ghost use Rattle.iso_file.specs.Isos.{AreIsos, IsFirstBlockFault, OrNoMemory};
ghost use Rattle.iso_file.specs.Stepped.{Adds, AllFilled};

use crate::block::read_block;
use crate::fault::IsoFault;
use crate::header::{header_next, is_header};
use smpl_lexer::PatchToken;
use smpl_patch::Iso;
use sqlite_items::Items;
use std::alloc::Global;

/// Adds the isomorphism of one more block, unless it has no lines.
fn with_block(
    alloc: Global,
    isos: Items<Iso>,
    lines: &[Items<PatchToken>],
) -> Result<Items<Iso>, IsoFault>
    requires { AllFilled lines.now }
    ensures isos { IfOk result (λ all. Adds isos (filled (lines.now ∷ [])) all) }
    ensures fault { IfErr result
        (λ f. OrNoMemory (IsFirstBlockFault (filled (lines.now ∷ []))) f) }
{
    if lines.is_empty() {
        return Ok(isos);
    }
    let iso = read_block(alloc, lines)?;
    let mut isos = isos;
    isos.push(iso)?;
    Ok(isos)
}

/// Whether this line or an earlier one is a line `@ name @`.
fn seen_at(seen: bool, line: &[PatchToken]) -> bool
    ensures { result ≡ (seen || spec.is_header line.now) }
{
    seen || is_header(line)
}

/// Whether a block begins at the line before these, given whether that line or an earlier one is a line `@ name @`.
fn is_begin(seen: bool, rest: &[Items<PatchToken>]) -> bool
    ensures { result ≡ (seen && spec.header_next rest.now) }
{
    seen && header_next(rest)
}

/// Returns the isomorphisms of all blocks, or the first fault of the first block that has one.
pub fn read_blocks(alloc: Global, lines: &[Items<PatchToken>]) -> Result<Items<Iso>, IsoFault>
    requires { AllFilled lines.now }
    ensures isos { IfOk result (λ isos. AreIsos (blocks lines.now) isos) }
    ensures fault { IfErr result (λ f. OrNoMemory (IsFirstBlockFault (blocks lines.now)) f) }
{
    let mut isos = Items::new(alloc);
    let mut start = 0;
    let mut seen = false;
    for i in 0..lines.len() {
        seen = seen_at(seen, lines[i].as_slice());
        if is_begin(seen, &lines[i + 1..]) {
            isos = with_block(alloc, isos, &lines[start..i])?;
            start = i;
        }
    }
    with_block(alloc, isos, &lines[start..])
}
