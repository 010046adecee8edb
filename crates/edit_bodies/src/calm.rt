// The lists whose commas may go: between the brackets of one stands neither a `#` line nor a token behind a stray byte.
ghost use Rattle.std.specs.Prelude.{◌≡◌, ◌<◌, ◌+◌, ◌^◌, ◌++◌, ◌∷◌, [], Bool, List, IfOk, OnOk};
ghost use Rattle.std.specs.Prelude.{false, filter, get_or, if◌then◌else◌, length, not};
ghost use Rattle.c_lexer.specs.Pieces.{TextPiece};
ghost use Rattle.tidy_flags.specs.Signs.{is_closing};
ghost use Rattle.edit_unparse.specs.Fair.{after_stray, is_stray};
ghost use Rattle.edit_unparse.specs.Tidy.Fair.{behind_strays, closings, token_flag};
ghost use Rattle.edit_bodies.specs.Calm as spec;

use c_lexer::{Lexed, PieceKind};
use c_terms::{NoMemory, TokenKind};
use edit_unparse::CommaList;
use std::alloc::Global;
use tidy_flags::flag_at;

/// Returns the lists without a `#` line and without a token behind a stray byte, in their order. Linear in the text and the
/// lists: a list costs two comparisons of counts, however long it is.
pub fn calm_lists(
    alloc: Global,
    lexed: &Lexed,
    lists: &[CommaList],
) -> Result<Vec<CommaList>, NoMemory>
    ensures { IfOk result (λ calm. calm.items ≡ filter (spec.is_calm lexed.now) lists.now) }
{
    let marks = marks_of(alloc, lexed)?;
    let mut calm = Vec::new(alloc);
    for list in lists {
        push_if(&mut calm, *list, is_calm(&marks, *list))?;
    }
    Ok(calm)
}

fn push_if(lists: &mut Vec<CommaList>, list: CommaList, is: bool) -> Result<(), NoMemory>
    ensures { OnOk result (lists.new.items ≡ lists.old.items ++ (if is then list ∷ [] else [])) }
{
    if is {
        lists.push(list)?;
    }
    Ok(())
}

/// What is known of the tokens of a text.
#[derive(Drop)]
struct TokenMarks {
    /// For each token whether it is a closing bracket.
    closings: Vec<bool>,
    /// For each token how many of those up to it stand behind a stray byte.
    strays: Vec<usize>,
    /// For each token how many of those up to it stand behind a `#` line.
    lines: Vec<usize>,
}

fn marks_of(alloc: Global, lexed: &Lexed) -> Result<TokenMarks, NoMemory>
    ensures { IfOk result (spec.AreMarks lexed.now) }
{
    let closings = closings(alloc, lexed)?;
    let behind_strays = behind_strays(alloc, lexed)?;
    let strays = set_counts(alloc, behind_strays.as_slice())?;
    let behind_lines = behind_lines(alloc, lexed)?;
    let lines = set_counts(alloc, behind_lines.as_slice())?;
    Ok(TokenMarks {
        closings,
        strays,
        lines,
    })
}

/// Whether a list ends with a closing bracket, and has neither a `#` line nor a token behind a stray byte.
fn is_calm(marks: &TokenMarks, list: CommaList) -> bool
    ensures { (pieces : List TextPiece) → spec.AreMarks pieces marks.now → result ≡ spec.is_calm pieces list }
{
    if list.opening >= list.closing {
        return false;
    }
    if !flag_at(marks.closings.as_slice(), list.closing as usize) {
        return false;
    }
    has_none(marks.strays.as_slice(), list) && has_none(marks.lines.as_slice(), list)
}

/// Whether none of the tokens of a list behind its opening bracket is flagged, given how many are up to each token.
fn has_none(counts: &[usize], list: CommaList) -> bool
    requires { list.opening < list.closing }
    ensures { (flags : List Bool) → spec.AreSetCounts flags counts.now → list.closing < length flags →
        result ≡ not (spec.has_flag flags list) }
{
    count_at(counts, list.opening as usize) == count_at(counts, list.closing as usize)
}

fn count_at(counts: &[usize], token: usize) -> usize
    ensures { result ≡ get_or counts.now token 0 }
{
    match counts.get(token) {
        Some(count) => *count,
        None => 0,
    }
}

/// Returns for each flag how many of those up to it are set.
fn set_counts(alloc: Global, flags: &[bool]) -> Result<Vec<usize>, NoMemory>
    ensures { IfOk result (λ counts. spec.AreSetCounts flags.now counts.items) }
{
    let mut counts = Vec::with_capacity(alloc, flags.len())?;
    let mut count = 0;
    for flag in flags {
        count = count_after(count, *flag);
        counts.push(count)?;
    }
    Ok(counts)
}

/// Returns a count with one more, if `is` holds.
fn count_after(count: usize, is: bool) -> usize
    requires { count + 1 < 2 ^ 64 }
    ensures { result ≡ (if is then count + 1 else count) }
{
    if is { count + 1 } else { count }
}

/// Returns for each token whether it is a closing bracket.
fn closings(alloc: Global, lexed: &Lexed) -> Result<Vec<bool>, NoMemory>
    ensures { IfOk result (λ flags. flags.items ≡ closings lexed.now) }
{
    let bytes = lexed.bytes();
    let mut flags = Vec::new(alloc);
    for i in 0..lexed.count() {
        let piece = lexed.piece(i);
        let text = &bytes[piece.start as usize..piece.end as usize];
        put_flag(&mut flags, piece.kind, is_closing(text))?;
    }
    Ok(flags)
}

fn is_closing(text: &[u8]) -> bool
    ensures { result ≡ is_closing text.now }
{
    text == b")".as_slice() || text == b"]".as_slice() || text == b"}".as_slice()
}

/// Returns for each token whether the nearest earlier piece that is not a blank is a stray byte.
fn behind_strays(alloc: Global, lexed: &Lexed) -> Result<Vec<bool>, NoMemory>
    ensures { IfOk result (λ flags. flags.items ≡ behind_strays false lexed.now) }
{
    let mut flags = Vec::new(alloc);
    let mut after = false;
    for i in 0..lexed.count() {
        let kind = lexed.piece(i).kind;
        put_flag(&mut flags, kind, after)?;
        after = after_stray(kind, after);
    }
    Ok(flags)
}

fn after_stray(kind: PieceKind, after: bool) -> bool
    ensures { result ≡ after_stray kind after }
{
    match kind {
        PieceKind::Word(token, _) => is_stray(token),
        PieceKind::Blank => after,
        PieceKind::Comment => false,
        PieceKind::Line => false,
    }
}

fn is_stray(kind: TokenKind) -> bool
    ensures { result ≡ is_stray kind }
{
    match kind {
        TokenKind::Stray => true,
        _ => false,
    }
}

/// Returns for each token whether a `#` line stands between it and the token before it.
fn behind_lines(alloc: Global, lexed: &Lexed) -> Result<Vec<bool>, NoMemory>
    ensures { IfOk result (λ flags. flags.items ≡ spec.behind_lines false lexed.now) }
{
    let mut flags = Vec::new(alloc);
    let mut after = false;
    for i in 0..lexed.count() {
        let kind = lexed.piece(i).kind;
        put_flag(&mut flags, kind, after)?;
        after = after_line(kind, after);
    }
    Ok(flags)
}

fn after_line(kind: PieceKind, after: bool) -> bool
    ensures { result ≡ spec.after_line kind after }
{
    match kind {
        PieceKind::Word(_, _) => false,
        PieceKind::Blank => after,
        PieceKind::Comment => after,
        PieceKind::Line => true,
    }
}

/// Adds the flag of a piece, if it is a token.
fn put_flag(flags: &mut Vec<bool>, kind: PieceKind, flag: bool) -> Result<(), NoMemory>
    ensures { OnOk result (flags.new.items ≡ flags.old.items ++ token_flag kind flag) }
{
    if let PieceKind::Word(_, _) = kind {
        flags.push(flag)?;
    }
    Ok(())
}
