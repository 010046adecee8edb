// Where tokens begin.
ghost use Rattle.std.specs.Prelude.{◌≡◌, IfOk};
ghost use Rattle.c_lexer.specs.Lexes.{Lexes};
ghost use Rattle.c_places.specs.Starts as spec;

use c_lexer::{LexFault, Lexed, PieceKind, lex};
use c_terms::NoMemory;
use sqlite_items::Items;
use std::alloc::Global;

/// Where the tokens of a text begin, as offsets of bytes.
#[derive(Drop)]
pub struct TextPlaces {
    /// By the ids of the tokens, which are counted from 0.
    pub tokens: Items<u32>,
}

/// Returns the pieces of a text that is short enough. A text that is too long is refused as if out of memory.
fn cut(alloc: Global, text: &[u8]) -> Result<Lexed, NoMemory>
    ensures { IfOk result (λ lexed. Lexes text.now lexed) }
{
    match lex(alloc, text) {
        Ok(lexed) => Ok(lexed),
        Err(LexFault::TooLong) => Err(NoMemory),
        Err(LexFault::NoMemory) => Err(NoMemory),
    }
}

fn is_token(kind: PieceKind) -> bool
    ensures { result ≡ spec.is_token kind }
{
    match kind {
        PieceKind::Word(_, _) => true,
        PieceKind::Blank => false,
        PieceKind::Comment => false,
        PieceKind::Line => false,
    }
}

/// Returns where the tokens begin.
fn token_starts(alloc: Global, lexed: &Lexed) -> Result<Items<u32>, NoMemory>
    ensures { IfOk result (λ starts. starts ≡ spec.token_starts lexed.now) }
{
    let mut starts = Items::new(alloc);
    for i in 0..lexed.count() {
        let piece = lexed.piece(i);
        if is_token(piece.kind) {
            starts.push(piece.start)?;
        }
    }
    Ok(starts)
}

/// Returns where the tokens of a text begin. Linear in the text. Fails only when out of memory, and for a text of more than
/// 16,777,216 bytes.
pub fn places_in(alloc: Global, text: &[u8]) -> Result<TextPlaces, NoMemory>
    ensures places { IfOk result (λ places. spec.ArePlaces text.now places) }
{
    let lexed = cut(alloc, text)?;
    let tokens = token_starts(alloc, &lexed)?;
    Ok(TextPlaces { tokens })
}
