// The tokens of an item.
ghost use Rattle.std.specs.Prelude.{◌≡◌, ◌<◌, ◌≤◌, IfOk, length, map, slice_range, All};
ghost use Rattle.c_file.specs.Tokens.{word_of, token_at, tokens_in};

use c_lexer::{Lexed, PieceKind};
use c_terms::{NoMemory, Text, Token, TokenKind};
use cpp_lines::{ItemSpan, Visible};
use std::alloc::Global;

/// Returns the kind and the id of a piece that is a token.
fn word_of(kind: PieceKind) -> (TokenKind, u64)
    ensures { result ≡ word_of kind }
{
    match kind {
        PieceKind::Word(kind, id) => (kind, id),
        _ => (TokenKind::Stray, 0),
    }
}

fn token_at(alloc: Global, lexed: &Lexed, number: usize) -> Result<Token, NoMemory>
    requires within { number < length lexed.now }
    ensures { IfOk result (λ token. token ≡ token_at lexed.now number) }
{
    let piece = lexed.piece(number);
    let text = Text::from_bytes(
        alloc,
        &lexed.bytes()[piece.start as usize..piece.end as usize],
    )?;
    let (kind, id) = word_of(piece.kind);
    Ok(Token { kind, text, id })
}

/// Returns the tokens of an item.
pub(crate) fn tokens_in(
    alloc: Global,
    visible: &Visible,
    span: ItemSpan,
) -> Result<Vec<Token>, NoMemory>
    requires rises { span.first ≤ span.last }
    requires within { span.last ≤ length visible.now.shown }
    ensures { IfOk result (λ tokens. tokens.items ≡ tokens_in visible.now span) }
{
    let lexed = visible.lexed();
    let numbers = &visible.shown()[span.first as usize..span.last as usize];
    let mut tokens = Vec::with_capacity(alloc, numbers.len())?;
    for number in numbers {
        tokens.push(token_at(alloc, lexed, *number as usize)?)?;
    }
    Ok(tokens)
}
