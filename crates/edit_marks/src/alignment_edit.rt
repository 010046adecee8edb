// The edit of a touch.
ghost use Rattle.std.specs.Prelude.{◌≡◌, ◌++◌, ◌∷◌, Some, IfOk, OnOk, IfSome, option_copied, slice_get};
ghost use Rattle.edit_marks.specs.Blocks.{AreEven};
ghost use Rattle.edit_marks.specs.Edits.{HaveEvenBlocks, HaveSoundBlocks, HaveBlankIndents, ArePlainInserts, EditOf, block_of, side_of, anchor_of, insert_if, insert_of_block, inserts_at};
ghost use Rattle.edit_marks.specs.Inserts.{line_end};

use crate::edit_conflict::{Edit, Insert, Side};
use crate::file_tokens::{FileToken, FileTokens};
use crate::insert::{Anchor, ends_line, insert_text};
use crate::removals::{Aligned, removed_tokens};
use crate::spot::{PlusSpot, spots};
use c_terms::{NoMemory, Text};
use smpl_patch::{PatToken, PlusBlock, VarDecl};
use smpl_terms::Env;
use sqlite_items::Items;
use std::alloc::Global;

/// Returns the edit that an alignment makes.
pub fn edit_of(
    alloc: Global,
    decls: &[VarDecl],
    tokens: &[PatToken],
    env: &Env,
    files: &FileTokens<'_>,
    pairs: &[Aligned],
) -> Result<Edit, NoMemory>
    requires { HaveEvenBlocks tokens.now }
    ensures edit { IfOk result (EditOf decls.now tokens.now env.now files.now pairs.now) }
    ensures plain { IfOk result (λ edit. HaveSoundBlocks decls.now tokens.now env.now → HaveBlankIndents files.now
        → ArePlainInserts edit.inserts) }
{
    let edit = edit_at(alloc, decls, tokens, env, files, pairs)?;
    Ok(edit)
}

/// Returns the edit that an alignment makes: the removed tokens, and the inserts.
fn edit_at(
    alloc: Global,
    decls: &[VarDecl],
    tokens: &[PatToken],
    env: &Env,
    files: &FileTokens<'_>,
    pairs: &[Aligned],
) -> Result<Edit, NoMemory>
    requires { HaveEvenBlocks tokens.now }
    ensures { IfOk result (EditOf decls.now tokens.now env.now files.now pairs.now) }
{
    let removed = removed_tokens(alloc, tokens, pairs)?;
    let spots = spots(alloc, tokens, pairs)?;
    let inserts = inserts_at(alloc, decls, tokens, env, files, &removed, &spots)?;
    Ok(Edit {
        removed: Items::from_vec(removed),
        inserts: Items::from_vec(inserts),
    })
}

/// Returns the inserts at these places, in order.
fn inserts_at(
    alloc: Global,
    decls: &[VarDecl],
    tokens: &[PatToken],
    env: &Env,
    files: &FileTokens<'_>,
    removed: &[u32],
    spots: &[PlusSpot],
) -> Result<Vec<Insert>, NoMemory>
    requires { HaveEvenBlocks tokens.now }
    ensures { IfOk result (λ inserts. inserts.items
        ≡ inserts_at decls.now tokens.now env.now files.now removed.now spots.now) }
{
    let mut inserts = Vec::new(alloc);
    for spot in spots {
        push_insert(
            alloc,
            decls,
            tokens,
            env,
            files,
            removed,
            spot,
            &mut inserts,
        )?;
    }
    Ok(inserts)
}

/// Appends the insert at this place, or nothing if the pattern token has no block there or the file has no such token.
fn push_insert(
    alloc: Global,
    decls: &[VarDecl],
    tokens: &[PatToken],
    env: &Env,
    files: &FileTokens<'_>,
    removed: &[u32],
    spot: &PlusSpot,
    inserts: &mut Vec<Insert>,
) -> Result<(), NoMemory>
    requires { HaveEvenBlocks tokens.now }
    ensures { OnOk result (inserts.new.items ≡ inserts.old.items
        ++ insert_if decls.now env.now removed.now spot.now (block_of tokens.now spot.now)
        (slice_get files.now spot.now.token)) }
{
    match block_of(tokens, spot) {
        Some(block) => push_block(alloc, decls, env, files, removed, spot, block, inserts),
        None => Ok(()),
    }
}

/// Appends the insert of a block at this place, or nothing if the file has no such token.
fn push_block(
    alloc: Global,
    decls: &[VarDecl],
    env: &Env,
    files: &FileTokens<'_>,
    removed: &[u32],
    spot: &PlusSpot,
    block: &PlusBlock,
    inserts: &mut Vec<Insert>,
) -> Result<(), NoMemory>
    requires { AreEven block.now.lines }
    ensures { OnOk result (inserts.new.items ≡ inserts.old.items
        ++ insert_if decls.now env.now removed.now spot.now (Some block.now)
        (slice_get files.now spot.now.token)) }
{
    match files.get(alloc, spot.token)? {
        Some(file) => push_at_token(alloc, decls, env, removed, spot, block, &file, inserts),
        None => Ok(()),
    }
}

/// Appends the insert of a block at this token.
fn push_at_token(
    alloc: Global,
    decls: &[VarDecl],
    env: &Env,
    removed: &[u32],
    spot: &PlusSpot,
    block: &PlusBlock,
    file: &FileToken,
    inserts: &mut Vec<Insert>,
) -> Result<(), NoMemory>
    requires { AreEven block.now.lines }
    ensures { OnOk result (inserts.new.items ≡ inserts.old.items
        ++ insert_if decls.now env.now removed.now spot.now (Some block.now) (Some file.now)) }
{
    let insert = insert_of_block(alloc, decls, env, removed, spot, block, file)?;
    inserts.push(insert)?;
    Ok(())
}

fn insert_of_block(
    alloc: Global,
    decls: &[VarDecl],
    env: &Env,
    removed: &[u32],
    spot: &PlusSpot,
    block: &PlusBlock,
    file: &FileToken,
) -> Result<Insert, NoMemory>
    requires { AreEven block.now.lines }
    ensures { IfOk result (λ insert. insert
        ≡ insert_of_block decls.now env.now removed.now spot.now block.now file.now) }
{
    let joint = joint(alloc, file.returns, file.indent.as_bytes())?;
    let is_removed = removed.contains(&spot.token);
    let anchor = anchor_of(is_removed, spot.after, file.text.as_bytes());
    let text = insert_text(alloc, decls, env, block, anchor, &joint)?;
    let text = Text::from_bytes(alloc, &text)?;
    Ok(Insert {
        token: spot.token,
        side: side_of(spot.after),
        many: block.many,
        text,
    })
}

/// Returns a line end followed by these blanks. The line end is a newline, with a carriage return before it if `returns`.
pub(crate) fn joint(alloc: Global, returns: bool, indent: &[u8]) -> Result<Vec<u8>, NoMemory>
    ensures { IfOk result (λ joint. joint.items ≡ line_end returns ++ indent.now) }
{
    let mut joint = Vec::new(alloc);
    if returns {
        joint.push(b'\r')?;
    }
    joint.push(b'\n')?;
    joint.extend_from_slice(indent)?;
    Ok(joint)
}

pub(crate) fn block_of<'a>(tokens: &'a [PatToken], spot: &PlusSpot) -> Option<&'a PlusBlock>
    ensures { option_copied result ≡ block_of tokens.now spot.now }
{
    let token = tokens.get(spot.pattern as usize)?;
    if spot.after {
        token.after.as_ref()
    } else {
        token.before.as_ref()
    }
}

pub(crate) fn side_of(after: bool) -> Side
    ensures { result ≡ side_of after }
{
    if after { Side::After } else { Side::Before }
}

pub(crate) fn anchor_of(is_removed: bool, after: bool, text: &[u8]) -> Anchor
    ensures { result ≡ anchor_of is_removed after text.now }
{
    if is_removed {
        return Anchor::Removed;
    }
    if !after {
        return Anchor::BeforeToken;
    }
    if ends_line(text) {
        Anchor::AfterLine
    } else {
        Anchor::AfterToken
    }
}
