// The text of the words of a block, line by line.
ghost use Rattle.std.specs.Prelude.{◌≡◌, ◌≤◌, ◌++◌, length, drop, OnOk, IfOk, None};
ghost use Rattle.edit_marks.specs.Tidy.Layout as spec;

use crate::line::put_chunk;
use crate::tidy::words::BlockWord;
use c_terms::NoMemory;
use std::alloc::Global;

/// Adds the text of words, this many lines joined by these bytes. Each line drops its first `lead` blanks. Linear.
pub fn put_lines(
    alloc: Global,
    words: &[BlockWord],
    lines: usize,
    lead: usize,
    joint: &[u8],
    out: &mut Vec<u8>,
) -> Result<(), NoMemory>
    ensures { OnOk result (out.new.items ≡ out.old.items ++ spec.tidy_lines lead joint.now 0 lines words.now) }
{
    let mut from = 0;
    for number in 0..lines {
        put_joint(number, joint, out)?;
        let rest = &words[from..];
        let count = count_at(rest, number);
        put_words(alloc, &rest[..count], lead, out)?;
        from += count;
    }
    Ok(())
}

/// Adds what joins a line to the lines before it.
fn put_joint(number: usize, joint: &[u8], out: &mut Vec<u8>) -> Result<(), NoMemory>
    ensures { OnOk result (out.new.items ≡ out.old.items ++ spec.joint_before number joint.now) }
{
    if number == 0 {
        return Ok(());
    }
    out.extend_from_slice(joint)?;
    Ok(())
}

/// Returns how many words in front are of a line.
fn count_at(words: &[BlockWord], number: usize) -> usize
    ensures value { result ≡ spec.count_at number words.now }
    ensures within { result ≤ length words.now }
{
    words.iter().take_while(|word| word.line == number).count()
}

/// Adds the text of the words of a line.
fn put_words(
    alloc: Global,
    words: &[BlockWord],
    lead: usize,
    out: &mut Vec<u8>,
) -> Result<(), NoMemory>
    ensures { OnOk result (out.new.items ≡ out.old.items ++ spec.words_text None (spec.without_lead lead words.now)) }
{
    let mut lead = lead;
    let mut beside = None;
    for word in words {
        let gap = word.gap.as_bytes();
        let gap = &gap[lead.min(gap.len())..];
        beside = put_chunk(alloc, gap, &word.chunk, beside, out)?;
        lead = 0;
    }
    Ok(())
}
