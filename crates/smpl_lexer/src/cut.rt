// Cuts a line into tokens.
ghost use Rattle.std.specs.Prelude.{◌≡◌, ◌+◌, ◌≤◌, ◌++◌, [], length, IfOk, OnOk};
ghost use Rattle.smpl_patch.specs.Faults.{first_from};
ghost use Rattle.smpl_lexer.specs.Tokens as spec;
ghost use Rattle.smpl_lexer.specs.Cutting.{IsCutTo};

use crate::piece::{LineKind, first_in_line, is_bad, token_kind};
use crate::token::PatchToken;
use c_terms::{NoMemory, Text, Token};
use smpl_patch::{PatchFault, earlier};
use sqlite_items::Items;
use std::alloc::Global;

/// The tokens of a line, and the first fault so far.
#[derive(Drop)]
pub struct LineTokens {
    pub tokens: Items<PatchToken>,
    pub first: Option<PatchFault>,
}

/// Appends the piece, if it is a token.
fn push_token(
    alloc: Global,
    tokens: &mut Items<PatchToken>,
    kind: LineKind,
    text: &[u8],
    at: u32,
) -> Result<(), NoMemory>
    ensures { OnOk result (tokens.new ≡ tokens.old ++ spec.put_token (spec.token_kind kind) text.now at []) }
{
    if let Some(kind) = token_kind(kind) {
        let text = Text::from_bytes(alloc, text)?;
        tokens.push(PatchToken {
            token: Token { kind, text, id: 0 },
            at,
        })?;
    }
    Ok(())
}

/// Returns the first fault so far, that of a piece included, if it has one.
fn with_bad(first: Option<PatchFault>, bad: bool, at: u32) -> Option<PatchFault>
    ensures { result ≡ first_from first (spec.put_bad bad at []) }
{
    if bad {
        Some(earlier(first, PatchFault::BadToken(at)))
    } else {
        first
    }
}

/// Cuts the bytes of a line that begin at a place. Linear.
pub fn cut(
    alloc: Global,
    signs: bool,
    plus: bool,
    at: usize,
    bytes: &[u8],
    first: Option<PatchFault>,
) -> Result<LineTokens, NoMemory>
    requires { at + length bytes.now ≤ 1048576 }
    ensures { IfOk result (λ cut. IsCutTo signs plus at bytes.now first cut) }
{
    let mut tokens = Items::new(alloc);
    let mut first = first;
    let mut start = 0;
    while start < bytes.len() {
        let (kind, len) = first_in_line(signs, &bytes[start..]);
        let end = start + len;
        let text = &bytes[start..end];
        let place = (at + start) as u32;
        push_token(alloc, &mut tokens, kind, text, place)?;
        first = with_bad(first, is_bad(plus, kind, text), place);
        start = end;
    }
    Ok(LineTokens { tokens, first })
}
