// The tokens of a text.
ghost use Rattle.std.specs.Prelude.{◌≡◌, ◌==◌, ◌≤◌, ◌++◌, not, drop, IfOk, OnOk, length, slice_get};
ghost use Rattle.std.specs.List.{list_any, prefix_len};
ghost use Rattle.edit_marks.specs.Inserts.{line_start, first_line, returns_in};
ghost use Rattle.edit_marks.specs.Tokens.{file_tokens, places_of};

use crate::insert::{blanks, line_start};
use c_lexer::{Lexed, PieceKind};
use c_terms::{NoMemory, Text};
use std::alloc::Global;
use std::marker::Model;

/// A token of the file: its text, the blanks that begin its line, and how its line ends.
#[derive(Drop)]
pub struct FileToken {
    pub text: Text,
    pub indent: Text,
    /// Whether its line ends in a carriage return and a newline.
    pub returns: bool,
}

/// Where a token is: its first byte, the byte after its last, where its line begins, and how its line ends.
#[derive(Clone, Copy)]
pub struct TokenPlace {
    pub start: u32,
    pub end: u32,
    pub line: u32,
    /// Whether the line ends in a carriage return and a newline.
    pub returns: bool,
}

/// The tokens of a text in order. Contracts see their list; only their places are stored.
#[derive(Drop)]
pub struct FileTokens<'a> {
    bytes: &'a [u8],
    places: Vec<TokenPlace>,
}

impl<'a> Model for FileTokens<'a> {
    ghost use Rattle.std.specs.Prelude.{List, All, map};
    ghost use Rattle.edit_marks.specs.declared.file_tokens.FileToken.{FileToken as Token};

    ghost Value = { List Token };

    ghost use Rattle.edit_marks.specs.Tokens.{token_at, IsWithin};

    ghost view = { λ f. map (token_at f.bytes.now) f.places.items };

    ghost invariant = { λ f. All (IsWithin f.bytes.now) f.places.items };
}

impl<'a> FileTokens<'a> {
    /// Creates the tokens of a text. Linear: the start of a line is searched for once after each piece in which a line
    /// begins, and its end once. Takes sixteen bytes per token.
    pub fn of(alloc: Global, lexed: &'a Lexed) -> Result<FileTokens<'a>, NoMemory>
        ensures { IfOk result (λ tokens. tokens ≡ file_tokens lexed.now) }
    {
        let bytes = lexed.bytes();
        let mut places = Vec::new(alloc);
        let mut line = 0;
        let mut returns = returns_in(bytes);
        for i in 0..lexed.count() {
            let piece = lexed.piece(i);
            let place = TokenPlace {
                start: piece.start,
                end: piece.end,
                line,
                returns,
            };
            put_place(&mut places, piece.kind, place)?;
            let next = line_after(bytes, line, piece.start, piece.end);
            returns = returns_after(bytes, line, next, returns);
            line = next;
        }
        Ok(FileTokens { bytes, places })
    }

    /// Returns the number of tokens.
    pub fn count(&self) -> usize
        ensures value { result ≡ length self.now }
    {
        self.places.len()
    }

    /// Returns the token with this number, counted from 0. Copies its text and the blanks.
    pub fn get(&self, alloc: Global, number: u32) -> Result<Option<FileToken>, NoMemory>
        ensures { IfOk result (λ token. token ≡ slice_get self.now number) }
    {
        self.get_at(alloc, number as usize)
    }

    /// Does the same for a number of any size.
    pub(crate) fn get_at(&self, alloc: Global, number: usize) -> Result<Option<FileToken>, NoMemory>
        ensures { IfOk result (λ token. token ≡ slice_get self.now number) }
    {
        let Some(place) = self.places.get(number) else {
            return Ok(None);
        };
        let text = &self.bytes[place.start as usize..place.end as usize];
        let line = &self.bytes[place.line as usize..];
        Ok(Some(FileToken {
            text: Text::from_bytes(alloc, text)?,
            indent: Text::from_bytes(alloc, blanks(line))?,
            returns: place.returns,
        }))
    }
}

/// Adds the place of a piece, if it is a token.
fn put_place(
    places: &mut Vec<TokenPlace>,
    kind: PieceKind,
    place: TokenPlace,
) -> Result<(), NoMemory>
    ensures { OnOk result (places.new.items ≡ places.old.items ++ places_of kind place) }
{
    if let PieceKind::Word(_, _) = kind {
        places.push(place)?;
    }
    Ok(())
}

/// Returns where the line of a place begins, given where that of an earlier place begins.
fn line_after(bytes: &[u8], line: u32, start: u32, end: u32) -> u32
    requires rise { start ≤ end }
    requires within { end ≤ length bytes.now }
    requires line { line ≡ line_start bytes.now start }
    ensures { result ≡ line_start bytes.now end }
{
    if has_newline(&bytes[start as usize..end as usize]) {
        return line_start(bytes, end as usize) as u32;
    }
    line
}

/// Whether the line that begins at `next` ends in a carriage return and a newline, given whether an earlier one does.
fn returns_after(bytes: &[u8], line: u32, next: u32, returns: bool) -> bool
    requires within { next ≤ length bytes.now }
    requires returns { returns ≡ returns_in (drop line bytes.now) }
    ensures { result ≡ returns_in (drop next bytes.now) }
{
    if next == line {
        return returns;
    }
    returns_in(&bytes[next as usize..])
}

/// Whether the first line of these bytes ends in a carriage return and a newline.
fn returns_in(bytes: &[u8]) -> bool
    ensures { result ≡ returns_in bytes.now }
{
    first_line(bytes).ends_with(b"\r\n")
}

/// Returns the bytes up to and including the first newline, or all of them if there is none.
fn first_line(bytes: &[u8]) -> &[u8]
    ensures { result.now ≡ first_line bytes.now }
{
    let count = line_length(bytes);
    &bytes[..(count + 1).min(bytes.len())]
}

/// Returns the number of bytes before the first newline.
fn line_length(bytes: &[u8]) -> usize
    ensures value { result ≡ prefix_len (λ b. not (b == 10)) bytes.now }
    ensures within { result ≤ length bytes.now }
{
    bytes.iter().take_while(|byte| **byte != b'\n').count()
}

fn has_newline(text: &[u8]) -> bool
    ensures { result ≡ list_any (λ b. b == 10) text.now }
{
    text.contains(&b'\n')
}
