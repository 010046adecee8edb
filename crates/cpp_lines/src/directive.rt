// What a preprocessor line does to groups.
ghost use Rattle.std.specs.Prelude.{◌≡◌, ◌≤◌, length, MatchOption};
ghost use Rattle.cpp_lines.specs.Directives.{IsDirective};
ghost use Rattle.cpp_lines.specs.Words.{DoesAll, DoesAllAfter, HasOnlyZero, IsNextWord, NoWord, is_token_kind};

use c_lexer::{Kind, first_piece};

/// What a line does to groups.
#[derive(Clone, Copy, Debug, PartialEq, Eq)]
pub enum Directive {
    /// `#if`, `#ifdef` or `#ifndef`: opens a group whose first arm is shown.
    Open,
    /// `#if 0`: opens a group whose second arm is shown.
    OpenZero,
    /// `#elif` or `#else`: begins the next arm.
    Next,
    /// `#endif`: closes the group.
    Close,
    /// Any other line, and any piece that is not a line.
    Other,
}

/// Returns what a line does to groups.
pub fn read_directive(line: &[u8]) -> Directive
    ensures { IsDirective line.now result }
{
    if line.is_empty() {
        return of_words(line);
    }
    of_words(&line[1..])
}

/// Returns what a line with this text after its `#` does.
fn of_words(text: &[u8]) -> Directive
    ensures { DoesAll text.now result }
{
    let (start, end) = match next_word(text) {
        Some(word) => word,
        None => return Directive::Other,
    };
    of_word(&text[start..end], &text[end..])
}

/// Returns what a line does that has this first word and this text after it.
fn of_word(word: &[u8], rest: &[u8]) -> Directive
    ensures { DoesAllAfter word.now rest.now result }
{
    if word == b"if".as_slice() {
        return if is_only_zero(rest) {
            Directive::OpenZero
        } else {
            Directive::Open
        };
    }
    if word == b"ifdef".as_slice() || word == b"ifndef".as_slice() {
        return Directive::Open;
    }
    if word == b"elif".as_slice() || word == b"else".as_slice() {
        return Directive::Next;
    }
    if word == b"endif".as_slice() {
        return Directive::Close;
    }
    Directive::Other
}

/// Whether the text consists of just the word `0`.
fn is_only_zero(text: &[u8]) -> bool
    ensures { HasOnlyZero text.now result }
{
    match next_word(text) {
        Some((start, end)) => match next_word(&text[end..]) {
            Some(_) => false,
            None => &text[start..end] == b"0".as_slice(),
        },
        None => false,
    }
}

/// Returns where the first token of a text begins and ends, or `None` if it has no token.
fn next_word(text: &[u8]) -> Option<(usize, usize)>
    ensures { MatchOption result (NoWord text.now) (λ word. (word.0 ≤ word.1)
        × ((word.1 ≤ length text.now) × IsNextWord text.now word.0 word.1)) }
{
    let mut at = 0;
    while at < text.len() {
        let (kind, len) = first_piece(&text[at..]);
        let end = at + len;
        if is_token(kind) {
            return Some((at, end));
        }
        at = end;
    }
    None
}

fn is_token(kind: Kind) -> bool
    ensures { result ≡ is_token_kind kind }
{
    !matches!(kind, Kind::Blank | Kind::Comment | Kind::Line)
}
