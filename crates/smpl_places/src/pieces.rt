// The pieces of code that are spelled each by itself.
ghost use Rattle.std.specs.Prelude.{◌≡◌, IfOk};
ghost use Rattle.smpl_places.specs.Pieces as spec;

use crate::shape::{Shape, empty_shape, is_outside, shape_with};
use crate::sign::{Sign, is_when, sign_of};
use c_terms::{NoMemory, Token};
use smpl_meta::{Placed, is_host};
use sqlite_items::Items;
use std::alloc::Global;

/// A piece of code, and the place of its first token.
#[derive(Drop)]
pub struct Piece {
    pub at: u32,
    pub tokens: Items<Token>,
}

/// Where the next token is.
#[derive(Clone, Copy, Debug, PartialEq, Eq)]
pub enum Spot {
    /// In code.
    Code,
    /// Directly after dots or a nest, outside of brackets or in them.
    Host,
    /// In or directly after a clause in the line with this number.
    Clause(u32),
}

/// The pieces so far.
#[derive(Drop)]
pub struct Parting {
    pub done: Items<Piece>,
    /// The piece to which tokens may be added.
    pub last: Piece,
    pub shape: Shape,
    pub spot: Spot,
}

/// Ends the piece, unless it is empty.
fn closed(alloc: Global, parting: Parting) -> Result<Parting, NoMemory>
    ensures { IfOk result (λ next. next ≡ spec.closed parting) }
{
    let Parting {
        mut done,
        last,
        shape: _,
        spot,
    } = parting;
    if is_whole(&last) {
        done.push(last)?;
    }
    Ok(Parting {
        done,
        last: Piece {
            at: 0,
            tokens: Items::new(alloc),
        },
        shape: empty_shape(),
        spot,
    })
}

/// Returns where a piece begins, with a token at this place.
fn start_of(piece: &Piece, at: u32) -> u32
    ensures { result ≡ spec.start_of piece.now at }
{
    match piece.tokens.as_slice() {
        [] => at,
        [_, ..] => piece.at,
    }
}

/// Whether a piece has a token.
fn is_whole(piece: &Piece) -> bool
    ensures { result ≡ spec.is_whole piece.now }
{
    match piece.tokens.as_slice() {
        [] => false,
        [_, ..] => true,
    }
}

fn spot_after(p: &Placed) -> Spot
    ensures { result ≡ spec.spot_after p.now }
{
    if is_host(p) { Spot::Host } else { Spot::Code }
}

/// Adds a token to the piece.
fn with_token(alloc: Global, parting: Parting, p: &Placed) -> Result<Parting, NoMemory>
    ensures { IfOk result (λ next. next ≡ spec.with_token parting p.now) }
{
    let Parting {
        done,
        last,
        shape,
        spot: _,
    } = parting;
    let at = start_of(&last, p.at);
    let Piece { at: _, mut tokens } = last;
    tokens.push(p.token.copy(alloc)?)?;
    Ok(Parting {
        done,
        last: Piece { at, tokens },
        shape: shape_with(shape, sign_of(p))?,
        spot: spot_after(p),
    })
}

fn with_spot(parting: Parting, spot: Spot) -> Parting
    ensures { result ≡ spec.with_spot parting spot }
{
    let Parting {
        done,
        last,
        shape,
        spot: _,
    } = parting;
    Parting {
        done,
        last,
        shape,
        spot,
    }
}

fn is_mark_sign(sign: Sign) -> bool
    ensures { result ≡ spec.is_mark_sign sign }
{
    matches!(sign, Sign::Mark)
}

fn is_else_sign(sign: Sign) -> bool
    ensures { result ≡ spec.is_else_sign sign }
{
    matches!(sign, Sign::Else)
}

fn is_mark(parting: &Parting, p: &Placed) -> bool
    ensures { result ≡ spec.is_mark parting.now p.now }
{
    is_outside(parting.shape) && is_mark_sign(sign_of(p))
}

/// Adds a token of code: it is a mark between pieces, or belongs to a piece.
fn with_code(alloc: Global, parting: Parting, p: &Placed) -> Result<Parting, NoMemory>
    ensures { IfOk result (λ next. next ≡ spec.with_code parting p.now) }
{
    if is_mark(&parting, p) {
        Ok(with_spot(closed(alloc, parting)?, spot_after(p)))
    } else {
        with_token(alloc, parting, p)
    }
}

/// Ends the piece if it is complete and the token is no `else`.
fn turned(alloc: Global, parting: Parting, p: &Placed) -> Result<Parting, NoMemory>
    ensures { IfOk result (λ next. next ≡ spec.turned parting p.now) }
{
    if parting.shape.ended && !is_else_sign(sign_of(p)) {
        closed(alloc, parting)
    } else {
        Ok(parting)
    }
}

/// Whether the token is in a clause, or begins one.
fn is_in_clause(spot: Spot, p: &Placed) -> bool
    ensures { result ≡ spec.is_in_clause spot p.now }
{
    match spot {
        Spot::Code => false,
        Spot::Host => is_when(p),
        Spot::Clause(line) => p.line == line || is_when(p),
    }
}

/// Adds a token.
fn step(alloc: Global, parting: Parting, p: &Placed) -> Result<Parting, NoMemory>
    ensures { IfOk result (λ next. next ≡ spec.step parting p.now) }
{
    if is_in_clause(parting.spot, p) {
        return Ok(with_spot(parting, Spot::Clause(p.line)));
    }
    let parting = turned(alloc, parting, p)?;
    with_code(alloc, parting, p)
}

fn begun(alloc: Global) -> Parting
    ensures { result ≡ spec.begun }
{
    Parting {
        done: Items::new(alloc),
        last: Piece {
            at: 0,
            tokens: Items::new(alloc),
        },
        shape: empty_shape(),
        spot: Spot::Code,
    }
}

/// Returns the pieces of the tokens of a rule's patterns: each ends after a `;` outside of all brackets, after the `}` of a
/// block, or at dots, a sign of a nest or a sign of branches; `else` goes on with the piece before it. Clauses with `when` are
/// left out. Linear.
pub fn pieces_of(alloc: Global, placed: &[Placed]) -> Result<Items<Piece>, NoMemory>
    ensures { IfOk result (λ pieces. pieces ≡ spec.pieces_of placed.now) }
{
    let mut parting = begun(alloc);
    for p in placed {
        parting = step(alloc, parting, p)?;
    }
    let parting = closed(alloc, parting)?;
    Ok(parting.done)
}
