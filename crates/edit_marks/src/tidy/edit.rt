// The tidied edit of an alignment.
ghost use Rattle.std.specs.Prelude.{◌≡◌, ◌++◌, ◌<◌, length, slice_get, IfOk, OnOk};
ghost use Rattle.std.specs.List.Sorted.{IsStrictlyIncreasing};
ghost use Rattle.edit_marks.specs.Blocks.{AreEven};
ghost use Rattle.edit_marks.specs.Edits.{HaveEvenBlocks, block_of};
ghost use Rattle.edit_marks.specs.Tidy.Neighbours.{AreInPlace};
ghost use Rattle.edit_marks.specs.Tidy.Edits as spec;

use crate::alignment_edit::{anchor_of, block_of, joint, side_of};
use crate::block::least_lead;
use crate::edit_conflict::{Edit, Insert};
use crate::edit_walk::Numbers;
use crate::file_tokens::{FileToken, FileTokens};
use crate::insert::Anchor;
use crate::removals::{Aligned, removed_tokens};
use crate::spot::{PlusSpot, spots};
use crate::tidy::depth::AtomDepth;
use crate::tidy::edges::{PlacedBlock, is_removed, words_at};
use crate::tidy::insert::tidied_text;
use crate::tidy::place::{indent_of, reach_of};
use crate::tidy::words::{BlockWord, words_of};
use c_terms::{NoMemory, Text, Tree};
use smpl_patch::{PatToken, PlusBlock, VarDecl};
use smpl_terms::Env;
use sqlite_items::Items;
use std::alloc::Global;

/// Where a touch is, as far as the indentation goes.
#[derive(Clone, Copy)]
pub struct TouchLocation<'a> {
    /// The tokens of the file, and their ids.
    pub files: &'a FileTokens<'a>,
    pub ids: &'a Numbers,
    /// The tree of the item, and the path of the touch in it.
    pub tree: Option<&'a Tree>,
    pub path: &'a [u32],
    /// How deep the atom is.
    pub depth: AtomDepth,
    /// Whether the pattern is compared with the expressions in a node.
    pub is_inside: bool,
}

/// Returns the tidied edit that an alignment makes.
pub fn tidied_edit(
    alloc: Global,
    decls: &[VarDecl],
    tokens: &[PatToken],
    env: &Env,
    at: &TouchLocation<'_>,
    pairs: &[Aligned],
) -> Result<Edit, NoMemory>
    requires { HaveEvenBlocks tokens.now }
    ensures { IfOk result (spec.TidyEditOf decls.now tokens.now env.now at.now.ids.now at.now.files.now (spec.touch_of at.now) pairs.now) }
{
    let removed = removed_tokens(alloc, tokens, pairs)?;
    let spots = spots(alloc, tokens, pairs)?;
    let blocks = blocks_at(alloc, decls, tokens, env, &spots)?;
    let inserts = inserts_of(alloc, at, &removed, &blocks)?;
    Ok(Edit {
        removed: Items::from_vec(removed),
        inserts: Items::from_vec(inserts),
    })
}

/// Returns the blocks at these places, with their words.
fn blocks_at(
    alloc: Global,
    decls: &[VarDecl],
    tokens: &[PatToken],
    env: &Env,
    spots: &[PlusSpot],
) -> Result<Vec<PlacedBlock>, NoMemory>
    requires { HaveEvenBlocks tokens.now }
    ensures { IfOk result (λ blocks. blocks.items ≡ spec.blocks_at decls.now tokens.now env.now spots.now) }
{
    let mut blocks = Vec::new(alloc);
    for spot in spots {
        push_block(alloc, decls, tokens, env, spot, &mut blocks)?;
    }
    Ok(blocks)
}

fn push_block(
    alloc: Global,
    decls: &[VarDecl],
    tokens: &[PatToken],
    env: &Env,
    spot: &PlusSpot,
    blocks: &mut Vec<PlacedBlock>,
) -> Result<(), NoMemory>
    requires { HaveEvenBlocks tokens.now }
    ensures { OnOk result (blocks.new.items ≡ blocks.old.items
        ++ spec.block_if decls.now env.now spot.now (block_of tokens.now spot.now)) }
{
    match block_of(tokens, spot) {
        Some(block) => {
            let placed = placed(alloc, decls, env, spot, block)?;
            blocks.push(placed)?;
            Ok(())
        }
        None => Ok(()),
    }
}

fn placed(
    alloc: Global,
    decls: &[VarDecl],
    env: &Env,
    spot: &PlusSpot,
    block: &PlusBlock,
) -> Result<PlacedBlock, NoMemory>
    requires { AreEven block.now.lines }
    ensures { IfOk result (λ placed. placed ≡ spec.placed decls.now env.now spot.now block.now) }
{
    let words = words_of(alloc, decls, env, block)?;
    let lines = block.lines.as_slice();
    Ok(PlacedBlock {
        spot: *spot,
        many: block.many,
        lines: lines.len(),
        lead: least_lead(lines),
        words: Items::from_vec(words),
    })
}

/// Returns the inserts of blocks, which are in the order of their places.
fn inserts_of(
    alloc: Global,
    at: &TouchLocation<'_>,
    removed: &[u32],
    blocks: &[PlacedBlock],
) -> Result<Vec<Insert>, NoMemory>
    requires rise { IsStrictlyIncreasing removed.now }
    requires in_place { AreInPlace blocks.now }
    ensures { IfOk result (λ inserts. inserts.items
        ≡ spec.tidy_inserts at.now.ids.now at.now.files.now (spec.touch_of at.now) removed.now blocks.now 0 blocks.now) }
{
    let mut inserts = Vec::new(alloc);
    for number in 0..blocks.len() {
        push_insert(alloc, at, removed, blocks, number, &mut inserts)?;
    }
    Ok(inserts)
}

fn push_insert(
    alloc: Global,
    at: &TouchLocation<'_>,
    removed: &[u32],
    blocks: &[PlacedBlock],
    number: usize,
    inserts: &mut Vec<Insert>,
) -> Result<(), NoMemory>
    requires within { number < length blocks.now }
    requires rise { IsStrictlyIncreasing removed.now }
    requires in_place { AreInPlace blocks.now }
    ensures { OnOk result (inserts.new.items ≡ inserts.old.items
        ++ spec.inserts_at at.now.ids.now at.now.files.now (spec.touch_of at.now) removed.now blocks.now number
        (slice_get blocks.now number)) }
{
    let block = &blocks[number];
    let found = at.files.get(alloc, block.spot.token)?;
    match found {
        Some(file) => {
            let words = words_at(alloc, at.files, removed, blocks, number)?;
            let insert = insert_with(alloc, at, removed, block, &words, &file)?;
            inserts.push(insert)?;
            Ok(())
        }
        None => Ok(()),
    }
}

/// Returns what a block inserts that has these words with brackets.
fn insert_with(
    alloc: Global,
    at: &TouchLocation<'_>,
    removed: &[u32],
    block: &PlacedBlock,
    words: &[BlockWord],
    file: &FileToken,
) -> Result<Insert, NoMemory>
    requires { IsStrictlyIncreasing removed.now }
    ensures { IfOk result (λ insert. insert
        ≡ spec.insert_with at.now.ids.now at.now.files.now (spec.touch_of at.now) removed.now words.now block.now file.now) }
{
    let is_gone = is_removed(removed, block.spot.token as usize);
    let anchor = anchor_of(is_gone, block.spot.after, file.text.as_bytes());
    let indent = indent_at_anchor(alloc, at, anchor, file)?;
    let joint = joint(alloc, file.returns, indent.as_bytes())?;
    let own = tidied_text(alloc, block, words, anchor, &joint)?;
    let text = Text::from_bytes(alloc, &own)?;
    Ok(Insert {
        token: block.spot.token,
        side: side_of(block.spot.after),
        many: block.many,
        text,
    })
}

/// Returns the blanks that begin the lines of a block at an anchor; those of the anchor's line if the touch is in no tree.
fn indent_at_anchor(
    alloc: Global,
    at: &TouchLocation<'_>,
    anchor: Anchor,
    file: &FileToken,
) -> Result<Text, NoMemory>
    ensures { IfOk result (λ indent. indent
        ≡ spec.indent_at_anchor at.now.ids.now at.now.files.now (spec.touch_of at.now) anchor file.now) }
{
    let found = named_indent(alloc, at, anchor)?;
    or_own(alloc, &file.indent, found)
}

/// Returns the blanks that begin the line of the tree that the touch names; `None` if it is in no tree.
fn named_indent(
    alloc: Global,
    at: &TouchLocation<'_>,
    anchor: Anchor,
) -> Result<Option<Text>, NoMemory>
    ensures { IfOk result (λ indent. indent
        ≡ spec.named_indent at.now.ids.now at.now.files.now (spec.touch_of at.now) anchor) }
{
    match at.tree {
        Some(tree) => {
            let length = reach_of(anchor, at.is_inside, at.depth, tree, at.path);
            indent_of(alloc, at.ids, at.files, tree, &at.path[..length])
        }
        None => Ok(None),
    }
}

fn or_own(alloc: Global, own: &Text, found: Option<Text>) -> Result<Text, NoMemory>
    ensures { IfOk result (λ indent. indent ≡ spec.or_own own.now found) }
{
    match found {
        Some(indent) => Ok(indent),
        None => own.copy(alloc),
    }
}
