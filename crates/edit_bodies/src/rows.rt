// The rows of bodies: the tokens that stand in their places.
ghost use Rattle.std.specs.Prelude.{◌≡◌, ◌∷◌, [], IfOk, OnOk};
ghost use Rattle.edit_bodies.specs.Rows as spec;
ghost use Rattle.edit_bodies.specs.Scenes.{AddsRow, IsRow, text_in};

use crate::braces::{Braces, Spot};
use crate::scene::Scene;
use crate::words::token_at;
use c_terms::{NoMemory, Text, Token, TokenKind};
use edit_unparse::Placed;
use std::alloc::Global;

/// What stands in the place of a body.
#[derive(Drop)]
pub struct Row {
    pub tokens: Vec<Token>,
    /// Where its last token ends, if it has one.
    pub end: Option<Spot>,
}

/// Returns the row of a body: the inserts behind the token before it, and its tokens with the inserts at them, of those behind
/// the last token these.
pub fn row_of(
    alloc: Global,
    scene: &Scene<'_>,
    braces: &Braces,
    lead: Option<u32>,
    tokens: &[u32],
    behind: &[Placed],
) -> Result<Row, NoMemory>
    ensures { IfOk result (IsRow (spec.row (text_in scene.now) braces.now lead tokens.now behind.now)) }
{
    let mut row = Row {
        tokens: Vec::new(alloc),
        end: None,
    };
    if let Some(token) = lead {
        let inserts = scene.plan.at(token, true);
        put_side(alloc, scene, braces, (token, true), inserts, &mut row)?;
    }
    put_tokens(alloc, scene, braces, tokens, behind, &mut row)?;
    Ok(row)
}

/// Adds tokens with what stands at them, of the inserts behind the last of them these.
fn put_tokens(
    alloc: Global,
    scene: &Scene<'_>,
    braces: &Braces,
    tokens: &[u32],
    behind: &[Placed],
    row: &mut Row,
) -> Result<(), NoMemory>
    ensures { OnOk result (AddsRow (spec.row_tokens (text_in scene.now) braces.now behind.now tokens.now) row.old row.new) }
{
    let count = tokens.len();
    if count == 0 {
        return Ok(());
    }
    put_front(alloc, scene, braces, &tokens[..count - 1], row)?;
    put_token(alloc, scene, braces, tokens[count - 1], behind, row)?;
    Ok(())
}

/// Adds tokens with what stands at them.
fn put_front(
    alloc: Global,
    scene: &Scene<'_>,
    braces: &Braces,
    tokens: &[u32],
    row: &mut Row,
) -> Result<(), NoMemory>
    ensures { OnOk result (AddsRow (spec.row_front (text_in scene.now) braces.now tokens.now) row.old row.new) }
{
    for token in tokens {
        let inserts = scene.plan.at(*token, true);
        put_token(alloc, scene, braces, *token, inserts, row)?;
    }
    Ok(())
}

/// Adds a token with what stands before it, and with these of the inserts behind it.
fn put_token(
    alloc: Global,
    scene: &Scene<'_>,
    braces: &Braces,
    token: u32,
    behind: &[Placed],
    row: &mut Row,
) -> Result<(), NoMemory>
    ensures { OnOk result (AddsRow (spec.row_token (text_in scene.now) braces.now token behind.now) row.old row.new) }
{
    let before = scene.plan.at(token, false);
    put_side(alloc, scene, braces, (token, false), before, row)?;
    put_own(alloc, scene, token, row)?;
    put_side(alloc, scene, braces, (token, true), behind, row)?;
    Ok(())
}

/// Adds a token, if it stays.
fn put_own(alloc: Global, scene: &Scene<'_>, token: u32, row: &mut Row) -> Result<(), NoMemory>
    ensures { OnOk result (AddsRow (spec.own_token (text_in scene.now) token) row.old row.new) }
{
    let piece = scene.plan.piece(token as usize);
    if scene.plan.goes(token as usize) || scene.fallen.has(piece) {
        return Ok(());
    }
    let own = token_at(alloc, scene.lexed, piece as usize)?;
    let end = Spot {
        token,
        after: true,
        inserts: 0,
    };
    push(own, end, row)
}

fn push(token: Token, end: Spot, row: &mut Row) -> Result<(), NoMemory>
    ensures { OnOk result (AddsRow (spec.ending_at end (token ∷ [])) row.old row.new) }
{
    row.tokens.push(token)?;
    row.end = Some(end);
    Ok(())
}

/// Adds these inserts on a side of a token, with the braces before, between and behind them.
fn put_side(
    alloc: Global,
    scene: &Scene<'_>,
    braces: &Braces,
    side: (u32, bool),
    inserts: &[Placed],
    row: &mut Row,
) -> Result<(), NoMemory>
    ensures { OnOk result (AddsRow (spec.row_side (text_in scene.now) braces.now side.0 side.1 inserts.now) row.old row.new) }
{
    let start = Spot {
        token: side.0,
        after: side.1,
        inserts: 0,
    };
    put_braces(alloc, braces, start, row)?;
    for (i, placed) in inserts.iter().enumerate() {
        let spot = Spot {
            token: side.0,
            after: side.1,
            inserts: i + 1,
        };
        put_words(alloc, scene.tokens(placed), spot, row)?;
        put_braces(alloc, braces, spot, row)?;
    }
    Ok(())
}

/// Adds the tokens of an insert, which ends at this place.
fn put_words(alloc: Global, words: &[Token], spot: Spot, row: &mut Row) -> Result<(), NoMemory>
    ensures { OnOk result (AddsRow (spec.ending_at spot words.now) row.old row.new) }
{
    for word in words {
        let own = word.copy(alloc)?;
        push(own, spot, row)?;
    }
    Ok(())
}

fn put_braces(alloc: Global, braces: &Braces, spot: Spot, row: &mut Row) -> Result<(), NoMemory>
    ensures { OnOk result (AddsRow (spec.braces_at braces.now spot) row.old row.new) }
{
    let found = braces.at(alloc, spot)?;
    for opens in &found {
        let sign = brace(alloc, *opens)?;
        push(sign, spot, row)?;
    }
    Ok(())
}

fn brace(alloc: Global, opens: bool) -> Result<Token, NoMemory>
    ensures { IfOk result (λ token. token ≡ spec.brace opens) }
{
    let sign: &[u8] = if opens { b"{" } else { b"}" };
    Ok(Token {
        kind: TokenKind::Punct,
        text: Text::from_bytes(alloc, sign)?,
        id: 0,
    })
}
