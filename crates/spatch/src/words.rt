// The words of the command line, as bytes.
use c_terms::{NoMemory, Text};
use std::alloc::Global;
use std::env::{Env, FillError};

/// The size in bytes of the first buffer for a word. It is doubled until the word fits.
const SHORT_WORD: usize = 256;

/// Returns the words after the program's name. They need not be UTF-8.
pub fn words_after_name<R: Env>(rt: &R, alloc: Global) -> Result<Vec<Text>, NoMemory> {
    let mut words = Vec::new(alloc);
    for place in 1..usize::MAX {
        match word_at(rt, alloc, place)? {
            Some(word) => words.push(word)?,
            None => break,
        }
    }
    Ok(words)
}

/// Returns the word at a position, if there is one.
fn word_at<R: Env>(rt: &R, alloc: Global, place: usize) -> Result<Option<Text>, NoMemory> {
    let mut room = SHORT_WORD;
    for _ in 0..usize::BITS {
        let mut buffer = vec![in alloc; 0u8; room]?;
        match rt.arg(place, &mut buffer) {
            Ok(length) => return Ok(Some(Text::from_bytes(alloc, &buffer[..length])?)),
            Err(FillError::NotPresent) => return Ok(None),
            Err(FillError::TooLong) => room = room.saturating_mul(2),
        }
    }
    Err(NoMemory)
}
