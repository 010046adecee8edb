// Brackets around the values of a block that would not hold together.
ghost use Rattle.std.specs.Prelude.{◌≡◌, ◌++◌, IfOk, codes};
ghost use Rattle.std.specs.Option.{option_copied};
ghost use Rattle.edit_marks.specs.Tidy.Brackets as spec;

use crate::line::{Chunk, copy_of, left_after};
use crate::tidy::words::{BlockWord, Hold, copy_chunk};
use c_terms::{NoMemory, Text};
use std::alloc::Global;

/// The tokens next to a block, where there are some.
#[derive(Drop)]
pub struct Outside {
    pub left: Option<Text>,
    pub right: Option<Text>,
}

/// Returns the words of a block that stands between these tokens, with brackets around the values that need them. Linear.
pub fn with_brackets(
    alloc: Global,
    words: &[BlockWord],
    outside: &Outside,
) -> Result<Vec<BlockWord>, NoMemory>
    ensures { IfOk result (λ all. all.items ≡ spec.with_brackets outside.now.left outside.now.right words.now) }
{
    let mut all = Vec::with_capacity(alloc, words.len())?;
    let mut left = copy_of(alloc, &outside.left)?;
    for i in 0..words.len() {
        let word = &words[i];
        let needs = is_loose(word, &left, &words[i + 1..], &outside.right);
        all.push(with_brackets_if(alloc, needs, word)?)?;
        left = left_after(left, copy_of(alloc, &word.chunk.last)?);
    }
    Ok(all)
}

/// Whether a word needs brackets, given the token before it, and the words behind it with what is behind these.
fn is_loose(
    word: &BlockWord,
    left: &Option<Text>,
    behind: &[BlockWord],
    right: &Option<Text>,
) -> bool
    ensures { result ≡ spec.needs_brackets word.now.hold left.now (spec.first_token behind.now right.now) }
{
    if word.hold == Hold::Firm {
        return false;
    }
    let next = first_token(behind, right);
    !(is_closed_left(word.hold, left.as_ref()) && is_closed_right(word.hold, next))
}

/// Returns the first token of words, or else what is behind them.
pub fn first_token<'a>(words: &'a [BlockWord], right: &'a Option<Text>) -> Option<&'a Text>
    ensures { option_copied result ≡ spec.first_token words.now right.now }
{
    for word in words {
        if let Some(text) = &word.chunk.first {
            return Some(text);
        }
    }
    right.as_ref()
}

fn is_closed_left(hold: Hold, left: Option<&Text>) -> bool
    ensures { result ≡ spec.is_closed_left hold (option_copied left.entry) }
{
    match left {
        None => true,
        Some(text) => closes_left(hold, text.as_bytes()),
    }
}

fn closes_left(hold: Hold, text: &[u8]) -> bool
    ensures { result ≡ spec.closes_left hold text.now }
{
    match hold {
        Hold::Comma => begins(text),
        _ => {
            begins(text)
                || text == b"(".as_slice()
                || text == b"[".as_slice()
                || text == b",".as_slice()
                || is_assignment(text)
        }
    }
}

fn is_closed_right(hold: Hold, right: Option<&Text>) -> bool
    ensures { result ≡ spec.is_closed_right hold (option_copied right.entry) }
{
    match right {
        None => true,
        Some(text) => closes_right(hold, text.as_bytes()),
    }
}

fn closes_right(hold: Hold, text: &[u8]) -> bool
    ensures { result ≡ spec.closes_right hold text.now }
{
    match hold {
        Hold::Comma => text == b";".as_slice(),
        Hold::Prefix => ends(text) || is_assignment(text),
        _ => ends(text),
    }
}

/// Whether a statement or a part of one begins behind this token.
fn begins(text: &[u8]) -> bool
    ensures { result ≡ spec.begins text.now }
{
    text == b"{".as_slice()
        || text == b"}".as_slice()
        || text == b";".as_slice()
        || text == b"return".as_slice()
}

/// Whether a statement or a part of one ends before this token.
fn ends(text: &[u8]) -> bool
    ensures { result ≡ spec.ends text.now }
{
    text == b")".as_slice()
        || text == b"]".as_slice()
        || text == b"}".as_slice()
        || text == b";".as_slice()
        || text == b",".as_slice()
}

/// Whether a token is `=`, or a sign such as `+=`.
fn is_assignment(text: &[u8]) -> bool
    ensures { result ≡ spec.is_assignment text.now }
{
    text == b"=".as_slice()
        || text == b"*=".as_slice()
        || text == b"/=".as_slice()
        || text == b"%=".as_slice()
        || text == b"+=".as_slice()
        || text == b"-=".as_slice()
        || text == b"<<=".as_slice()
        || text == b">>=".as_slice()
        || text == b"&=".as_slice()
        || text == b"^=".as_slice()
        || text == b"|=".as_slice()
}

fn with_brackets_if(alloc: Global, needs: bool, word: &BlockWord) -> Result<BlockWord, NoMemory>
    ensures { IfOk result (λ all. all ≡ spec.with_brackets_if needs word.now) }
{
    let chunk = if needs {
        bracketed(alloc, &word.chunk)?
    } else {
        copy_chunk(alloc, &word.chunk)?
    };
    Ok(BlockWord {
        line: word.line,
        gap: word.gap.copy(alloc)?,
        chunk,
        hold: word.hold,
        is_empty_list: word.is_empty_list,
        is_comma: word.is_comma,
    })
}

fn bracketed(alloc: Global, chunk: &Chunk) -> Result<Chunk, NoMemory>
    ensures { IfOk result (λ own. own ≡ spec.bracketed chunk.now) }
{
    let mut text = Vec::new(alloc);
    text.push(b'(')?;
    text.extend_from_slice(chunk.text.as_bytes())?;
    text.push(b')')?;
    Ok(Chunk {
        text: Text::from_bytes(alloc, &text)?,
        first: Some(Text::from_bytes(alloc, b"(")?),
        last: Some(Text::from_bytes(alloc, b")")?),
    })
}

/// Whether the value of some word may need brackets.
pub fn has_loose_word(words: &[BlockWord]) -> bool
    ensures { result ≡ spec.has_loose_word words.now }
{
    words.iter().any(|word| word.hold != Hold::Firm)
}
