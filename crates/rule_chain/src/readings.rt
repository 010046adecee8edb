// Readings of the text.
ghost use Rattle.std.specs.Prelude.{◌≡◌, IfOk};
ghost use Rattle.c_lexer.specs.Pieces.{text_of};
ghost use Rattle.c_lexer.specs.Lexes.{Lexes, Cuts};
ghost use Rattle.c_lexer.specs.Ids.{ids_of};
ghost use Rattle.c_file.specs.Reads.{Reads};
ghost use Rattle.rule_chain.specs.RuleEdits.Pages.{page_in};
ghost use Rattle.rule_chain.specs.RuleRun.States.{IsCut};

use crate::rule_edits::NewText;
use c_file::{CFile, read_file};
use c_lexer::{LexFault, Lexed, lex};
use c_terms::NoMemory;
use cpp_lines::shown_once;
use std::alloc::Global;

/// Returns the pieces of a text that is short enough. A text that is too long is refused as if out of memory.
pub fn cut(alloc: Global, bytes: &[u8]) -> Result<Lexed, NoMemory>
    ensures { IfOk result (λ lexed. Lexes bytes.now lexed) }
{
    match lex(alloc, bytes) {
        Ok(lexed) => Ok(lexed),
        Err(LexFault::TooLong) => Err(NoMemory),
        Err(LexFault::NoMemory) => Err(NoMemory),
    }
}

/// Returns the pieces of a text with these ids on its tokens. If there aren't as many ids as tokens, the text is refused as if
/// out of memory.
fn with_ids(alloc: Global, bytes: &[u8], ids: &[u64]) -> Result<Lexed, NoMemory>
    ensures text { IfOk result (λ lexed. text_of lexed ≡ bytes.now) }
    ensures cuts { IfOk result (λ lexed. Cuts lexed) }
    ensures ids { IfOk result (λ lexed. ids_of lexed ≡ ids.now) }
{
    let lexed = cut(alloc, bytes)?;
    if lexed.token_count() != ids.len() {
        return Err(NoMemory);
    }
    Ok(lexed.renumber(ids))
}

/// Reads a text that is cut.
pub fn read(alloc: Global, lexed: Lexed) -> Result<CFile, NoMemory>
    ensures pieces { IfOk result (λ file. file.pieces ≡ lexed) }
    ensures reads { IfOk result (λ file. Reads file.pieces file.items) }
    ensures shown { IfOk result (λ file. (reads : Reads file.pieces file.items) → reads.0 ≡ file.shown) }
{
    // A law: does nothing. A text shows only these tokens.
    shown_once();
    let file = read_file(alloc, lexed)?;
    Ok(file)
}

/// Reads the text that edits have left. Its tokens keep their ids.
pub fn read_again(alloc: Global, text: &NewText) -> Result<CFile, NoMemory>
    ensures cut { IfOk result (λ file. IsCut (page_in text.now) file.pieces) }
    ensures reads { IfOk result (λ file. Reads file.pieces file.items) }
    ensures shown { IfOk result (λ file. (reads : Reads file.pieces file.items) → reads.0 ≡ file.shown) }
{
    let lexed = with_ids(alloc, text.bytes.as_slice(), text.ids.as_slice())?;
    let file = read(alloc, lexed)?;
    Ok(file)
}
