// The tokens that rows are made of: those of pieces, and the visible ones of inserts.
ghost use Rattle.std.specs.Prelude.{◌≡◌, [], Some, get_or, IfOk};
ghost use Rattle.c_file.specs.Tokens.{token_at};
ghost use Rattle.edit_bodies.specs.Scenes.{AreEditWords, AreInsertWords, AreVisible, falls_in, tokens_left, words_at};

use crate::scene::Scene;
use c_lexer::{Lexed, PieceKind, lex};
use c_terms::{NoMemory, Text, Token, TokenKind};
use cpp_lines::{Visible, arms};
use edit_marks::Edit;
use edit_unparse::{Fallen, Placed};
use sqlite_items::{Items, at};
use std::alloc::Global;

/// Returns the visible tokens of each insert of each edit, without those that go with the commas of lists.
pub fn tokens_of_inserts(
    alloc: Global,
    edits: &[Edit],
    fallen: &Fallen,
) -> Result<Vec<Items<Items<Token>>>, NoMemory>
    ensures { IfOk result (λ all. AreInsertWords fallen.now edits.now all.items) }
{
    let mut all = Vec::with_capacity(alloc, edits.len())?;
    for (number, edit) in edits.iter().enumerate() {
        let own = tokens_of_edit(alloc, edit, number, fallen)?;
        all.push(own)?;
    }
    Ok(all)
}

fn tokens_of_edit(
    alloc: Global,
    edit: &Edit,
    number: usize,
    fallen: &Fallen,
) -> Result<Items<Items<Token>>, NoMemory>
    ensures { IfOk result (λ own. AreEditWords fallen.now number (Some edit.now) own) }
{
    let inserts = edit.inserts.as_slice();
    let mut own = Vec::with_capacity(alloc, inserts.len())?;
    for (i, insert) in inserts.iter().enumerate() {
        let tokens = visible_tokens(alloc, insert.text.as_bytes(), fallen, number, i)?;
        own.push(Items::from_vec(tokens))?;
    }
    Ok(Items::from_vec(own))
}

/// Returns the visible tokens of the text of an insert, without those that go with the commas of lists.
fn visible_tokens(
    alloc: Global,
    text: &[u8],
    fallen: &Fallen,
    edit: usize,
    insert: usize,
) -> Result<Vec<Token>, NoMemory>
    ensures { IfOk result (λ words. AreVisible (falls_in fallen.now edit insert) text.now words.items) }
{
    let lexed = match lex(alloc, text) {
        Ok(lexed) => lexed,
        Err(_) => return Err(NoMemory),
    };
    let visible = arms(alloc, lexed)?;
    tokens_left(alloc, &visible, fallen, edit, insert)
}

/// Returns the visible tokens of a text, without those that go from an insert.
fn tokens_left(
    alloc: Global,
    visible: &Visible,
    fallen: &Fallen,
    edit: usize,
    insert: usize,
) -> Result<Vec<Token>, NoMemory>
    ensures { IfOk result (λ words. words.items
        ≡ tokens_left (falls_in fallen.now edit insert) visible.now.pieces visible.now.shown) }
{
    let lexed = visible.lexed();
    let shown = visible.shown();
    let mut words = Vec::with_capacity(alloc, shown.len())?;
    for number in shown {
        let start = lexed.piece(*number as usize).start;
        if !fallen.has_added(edit, insert, start) {
            words.push(token_at(alloc, lexed, *number as usize)?)?;
        }
    }
    Ok(words)
}

/// Returns the token that a piece is, or an empty one if there is no such piece.
pub fn token_at(alloc: Global, lexed: &Lexed, number: usize) -> Result<Token, NoMemory>
    ensures { IfOk result (λ token. token ≡ token_at lexed.now number) }
{
    if number >= lexed.count() {
        return Ok(Token {
            kind: TokenKind::Stray,
            text: Text::from_bytes(alloc, &[])?,
            id: 0,
        });
    }
    let piece = lexed.piece(number);
    let text = Text::from_bytes(
        alloc,
        &lexed.bytes()[piece.start as usize..piece.end as usize],
    )?;
    let (kind, id) = match piece.kind {
        PieceKind::Word(kind, id) => (kind, id),
        _ => (TokenKind::Stray, 0),
    };
    Ok(Token { kind, text, id })
}

impl<'a> Scene<'a> {
    /// Returns the visible tokens of an insert.
    pub fn tokens(&self, placed: &Placed) -> &[Token]
        ensures { result.now ≡ words_at self.now.inserts.items placed.now }
    {
        match self.inserts.get(placed.edit) {
            Some(own) => insert_tokens(own.as_slice(), placed.insert),
            None => &[],
        }
    }
}

fn insert_tokens(inserts: &[Items<Token>], number: usize) -> &[Token]
    ensures { result.now ≡ get_or inserts.now number [] }
{
    match at(inserts, number) {
        Some(tokens) => tokens.as_slice(),
        None => &[],
    }
}
