// The text of a block at its anchor.
ghost use Rattle.std.specs.Prelude.{◌≡◌, IfOk};
ghost use Rattle.std.specs.Option.{option_copied};
ghost use Rattle.edit_marks.specs.Blocks.{block_ends};
ghost use Rattle.edit_marks.specs.Tidy.Layout as spec;

use crate::insert::{Anchor, ends_line};
use crate::tidy::edges::PlacedBlock;
use crate::tidy::lines::put_lines;
use crate::tidy::words::{BlockWord, last_token};
use c_terms::{NoMemory, Text};
use std::alloc::Global;

/// Returns the text that a block with these words inserts at an anchor. The bytes of `joint`, a line end and blanks, join its
/// lines.
pub fn tidied_text(
    alloc: Global,
    block: &PlacedBlock,
    words: &[BlockWord],
    anchor: Anchor,
    joint: &[u8],
) -> Result<Vec<u8>, NoMemory>
    ensures { IfOk result (λ text. text.items ≡ spec.tidy_text anchor joint.now
        block.now.lead block.now.lines words.now) }
{
    let mut own = Vec::new(alloc);
    put_lines(alloc, words, block.lines, block.lead, joint, &mut own)?;
    let text = at_anchor(alloc, anchor, joint, &own, ends(last_token(words)))?;
    Ok(text)
}

/// Returns the text at an anchor, given whether it ends in `;`, `{`, `}` or `:`.
fn at_anchor(
    alloc: Global,
    anchor: Anchor,
    joint: &[u8],
    own: &[u8],
    ends: bool,
) -> Result<Vec<u8>, NoMemory>
    ensures { IfOk result (λ text. text.items ≡ spec.tidy_insert_of anchor joint.now own.now ends) }
{
    let mut text = Vec::new(alloc);
    match anchor {
        Anchor::Removed => {
            text.extend_from_slice(own)?;
        }
        Anchor::AfterLine => {
            text.extend_from_slice(joint)?;
            text.extend_from_slice(own)?;
        }
        Anchor::AfterToken => {
            if !is_close_to_left(own) {
                text.push(b' ')?;
            }
            text.extend_from_slice(own)?;
        }
        Anchor::BeforeToken => {
            text.extend_from_slice(own)?;
            if ends {
                text.extend_from_slice(joint)?;
            } else {
                text.push(b' ')?;
            }
        }
    }
    Ok(text)
}

/// Whether a text begins with a sign before which no space stands.
fn is_close_to_left(text: &[u8]) -> bool
    ensures { result ≡ spec.is_close_to_left text.now }
{
    match text.first() {
        Some(byte) => *byte == b',' || *byte == b';' || *byte == b')' || *byte == b']',
        None => false,
    }
}

fn ends(last: Option<&Text>) -> bool
    ensures { result ≡ block_ends (option_copied last.entry) }
{
    match last {
        Some(text) => ends_line(text.as_bytes()),
        None => false,
    }
}
