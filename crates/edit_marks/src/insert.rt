// The text that a block of plus code inserts at its anchor.
ghost use Rattle.std.specs.Prelude.{◌≡◌, ◌≤◌, ◌++◌, length, take, IfOk, None};
ghost use Rattle.std.specs.List.{prefix_len};
ghost use Rattle.c_show.specs.PlainText.{IsPlainText};
ghost use Rattle.edit_marks.specs.Blocks.{block_text, last_of_lines, block_ends, ends_line, AreEven};
ghost use Rattle.edit_marks.specs.Plain.{AreSoundLines, IsJoint};
ghost use Rattle.edit_marks.specs.Inserts.{is_blank, line_start, indent_at, insert_of};

use crate::block::put_block;
use c_terms::{NoMemory, Text};
use smpl_patch::{PlusBlock, VarDecl};
use smpl_terms::Env;
use std::alloc::Global;

/// Where a block of plus code goes.
#[derive(Clone, Copy, Debug, PartialEq, Eq)]
pub enum Anchor {
    /// In place of a token that is removed.
    Removed,
    /// After a token that stays: `;`, `{`, `}` or `:`.
    AfterLine,
    /// After another token that stays.
    AfterToken,
    /// Before a token that stays.
    BeforeToken,
}

/// Returns the text that a block inserts at an anchor. The bytes of `joint`, a line end and blanks, join its lines.
pub fn insert_text(
    alloc: Global,
    decls: &[VarDecl],
    env: &Env,
    block: &PlusBlock,
    anchor: Anchor,
    joint: &[u8],
) -> Result<Vec<u8>, NoMemory>
    requires { AreEven block.now.lines }
    ensures text { IfOk result (λ text. text.items ≡ insert_of anchor joint.now
        (block_text decls.now env.now joint.now block.now)
        (block_ends (last_of_lines decls.now env.now None block.now.lines))) }
    ensures plain { IfOk result (λ text. IsJoint joint.now → AreSoundLines decls.now env.now block.now.lines
        → IsPlainText text.items) }
{
    let text = text_at(alloc, decls, env, block, anchor, joint)?;
    Ok(text)
}

fn text_at(
    alloc: Global,
    decls: &[VarDecl],
    env: &Env,
    block: &PlusBlock,
    anchor: Anchor,
    joint: &[u8],
) -> Result<Vec<u8>, NoMemory>
    requires { AreEven block.now.lines }
    ensures { IfOk result (λ text. text.items ≡ insert_of anchor joint.now
        (block_text decls.now env.now joint.now block.now)
        (block_ends (last_of_lines decls.now env.now None block.now.lines))) }
{
    let mut text = Vec::new(alloc);
    match anchor {
        Anchor::Removed => {
            put_block(alloc, decls, env, joint, block, &mut text)?;
        }
        Anchor::AfterLine => {
            text.extend_from_slice(joint)?;
            put_block(alloc, decls, env, joint, block, &mut text)?;
        }
        Anchor::AfterToken => {
            text.push(b' ')?;
            put_block(alloc, decls, env, joint, block, &mut text)?;
        }
        Anchor::BeforeToken => {
            let last = put_block(alloc, decls, env, joint, block, &mut text)?;
            if block_ends(&last) {
                text.extend_from_slice(joint)?;
            } else {
                text.push(b' ')?;
            }
        }
    }
    Ok(text)
}

fn block_ends(last: &Option<Text>) -> bool
    ensures { result ≡ block_ends last.now }
{
    match last {
        Some(text) => ends_line(text.as_bytes()),
        None => false,
    }
}

/// Whether a new line of plus code may begin after this token: it is `;`, `{`, `}` or `:`.
pub fn ends_line(text: &[u8]) -> bool
    ensures { result ≡ ends_line text.now }
{
    text == b";".as_slice()
        || text == b"{".as_slice()
        || text == b"}".as_slice()
        || text == b":".as_slice()
}

/// Returns the spaces and tabs at the start of the line that a place is in.
pub fn indent_at(bytes: &[u8], at: usize) -> &[u8]
    requires { at ≤ length bytes.now }
    ensures { result.now ≡ indent_at bytes.now at }
{
    blanks(&bytes[line_start(bytes, at)..])
}

/// Returns the spaces and tabs at the start of a line.
pub fn blanks(line: &[u8]) -> &[u8]
    ensures { result.now ≡ take (prefix_len is_blank line.now) line.now }
{
    &line[..blank_count(line)]
}

fn blank_count(line: &[u8]) -> usize
    ensures value { result ≡ prefix_len is_blank line.now }
    ensures within { result ≤ length line.now }
{
    line.iter().take_while(|byte| is_blank(**byte)).count()
}

/// Returns where the line that a place is in begins.
pub fn line_start(bytes: &[u8], at: usize) -> usize
    requires { at ≤ length bytes.now }
    ensures value { result ≡ line_start bytes.now at }
    ensures within { result ≤ at }
{
    let mut start = at;
    while start > 0 && bytes[start - 1] != b'\n' {
        start -= 1;
    }
    start
}

fn is_blank(byte: u8) -> bool
    ensures { result ≡ is_blank byte }
{
    byte == b' ' || byte == b'\t'
}
