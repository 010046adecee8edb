// The ids of the tokens of a text.
ghost use Rattle.std.specs.Prelude.{◌≡◌, ◌≤◌, ◌+◌, ◌++◌, [], IfOk, OnOk, length};
ghost use Rattle.c_lexer.specs.Ids.{ids_of, id_before};
ghost use Rattle.c_lexer.specs.Pieces.{most_bytes};

use c_lexer::{Lexed, PieceKind};
use c_terms::NoMemory;
use std::alloc::Global;

/// Returns the ids of the tokens in order.
pub fn token_ids(alloc: Global, lexed: &Lexed) -> Result<Vec<u64>, NoMemory>
    ensures ids { IfOk result (λ ids. ids.items ≡ ids_of lexed.now) }
    ensures few { IfOk result (λ ids. length ids.items ≤ most_bytes) }
{
    let mut ids = Vec::new(alloc);
    for i in 0..lexed.count() {
        put_id(&mut ids, lexed.piece(i).kind)?;
    }
    Ok(ids)
}

/// Adds the id of a piece, if it is a token.
fn put_id(ids: &mut Vec<u64>, kind: PieceKind) -> Result<(), NoMemory>
    ensures ids { OnOk result (ids.new.items ≡ ids.old.items ++ id_before kind []) }
    ensures one { OnOk result (length ids.new.items ≤ length ids.old.items + 1) }
{
    if let PieceKind::Word(_, id) = kind {
        ids.push(id)?;
    }
    Ok(())
}
