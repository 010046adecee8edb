// Which lines of a text are emptied, and what is left of its blanks.
ghost use Rattle.std.specs.Prelude.{◌≡◌, ◌≤◌, ◌<◌, ◌+◌, ◌-◌, ◌^◌, ◌++◌, ◌∷◌, [], length, take, drop, replicate, IfOk, OnOk, if◌then◌else◌};
ghost use Rattle.std.specs.List.{list_all, list_any};
ghost use Rattle.tidy_flags.specs.Lines.{emptied, emptied_from, is_emptied, left_of_lines, removed_bytes, blank_bytes, solid_bytes};

use crate::flags::flag_at;
use std::alloc::{AllocError, Global};

/// A byte of a text, by what it says of its line.
#[derive(Clone, Copy, Debug)]
pub struct LineByte {
    pub byte: u8,
    /// Whether it is of a removed token that stands wholly in a line and at whose place no insert stands.
    pub goes: bool,
    /// Whether it is of such a token, or of a blank and no backslash.
    pub is_soft: bool,
}

/// Returns for each byte whether its line is emptied. Linear.
pub fn emptied(alloc: Global, bytes: &[LineByte]) -> Result<Vec<bool>, AllocError>
    ensures { IfOk result (λ flags. flags.items ≡ emptied bytes.now) }
{
    let mut flags = Vec::with_capacity(alloc, bytes.len())?;
    let mut start = 0;
    for at in 0..bytes.len() {
        start = end_line(&mut flags, bytes, start, at)?;
    }
    put_line(&mut flags, &bytes[start..])?;
    Ok(flags)
}

/// Adds the flags of a line, if the byte at this place ends one. Returns where the line of the next byte starts.
fn end_line(
    flags: &mut Vec<bool>,
    bytes: &[LineByte],
    start: usize,
    at: usize,
) -> Result<usize, AllocError>
    requires rise { start ≤ at }
    requires within { at < length bytes.now }
    ensures rise { IfOk result (λ next. next ≤ at + 1) }
    ensures flags { IfOk result (λ next.
        flags.new.items ++ emptied_from (take (at + 1 - next) (drop next bytes.now)) (drop (at + 1) bytes.now)
        ≡ flags.old.items ++ emptied_from (take (at - start) (drop start bytes.now)) (drop at bytes.now)) }
{
    if bytes[at].byte != b'\n' {
        return Ok(start);
    }
    put_line(flags, &bytes[start..at + 1])?;
    Ok(at + 1)
}

/// Adds a flag for each byte of a line.
fn put_line(flags: &mut Vec<bool>, line: &[LineByte]) -> Result<(), AllocError>
    ensures { OnOk result (flags.new.items ≡ flags.old.items ++ replicate (length line.now) (is_emptied line.now)) }
{
    let is_emptied = is_emptied(line);
    for i in 0..line.len() {
        flags.push(is_emptied)?;
    }
    Ok(())
}

fn is_emptied(line: &[LineByte]) -> bool
    ensures { result ≡ is_emptied line.now }
{
    has_goer(line) && are_soft(line)
}

fn has_goer(line: &[LineByte]) -> bool
    ensures { result ≡ list_any (λ b. b.goes) line.now }
{
    line.iter().any(|it| it.goes)
}

fn are_soft(line: &[LineByte]) -> bool
    ensures { result ≡ list_all (λ b. b.is_soft) line.now }
{
    line.iter().all(|it| it.is_soft)
}

/// Adds the bytes of a removed token.
pub fn put_removed(
    bytes: &mut Vec<LineByte>,
    text: &[u8],
    has_insert: bool,
) -> Result<(), AllocError>
    ensures { OnOk result (bytes.new.items ≡ bytes.old.items ++ removed_bytes has_insert text.now) }
{
    let is_free = !has_insert && !text.contains(&b'\n');
    for byte in text {
        bytes.push(LineByte {
            byte: *byte,
            goes: is_free,
            is_soft: is_free,
        })?;
    }
    Ok(())
}

/// Adds the bytes of a blank.
pub fn put_blank(bytes: &mut Vec<LineByte>, text: &[u8]) -> Result<(), AllocError>
    ensures { OnOk result (bytes.new.items ≡ bytes.old.items ++ blank_bytes text.now) }
{
    for byte in text {
        bytes.push(LineByte {
            byte: *byte,
            goes: false,
            is_soft: *byte != b'\\',
        })?;
    }
    Ok(())
}

/// Adds the bytes of any other piece.
pub fn put_solid(bytes: &mut Vec<LineByte>, text: &[u8]) -> Result<(), AllocError>
    ensures { OnOk result (bytes.new.items ≡ bytes.old.items ++ solid_bytes text.now) }
{
    for byte in text {
        bytes.push(LineByte {
            byte: *byte,
            goes: false,
            is_soft: false,
        })?;
    }
    Ok(())
}

/// Returns the bytes of a text whose lines aren't emptied. The flag of its first byte is at this place.
pub fn left_of(alloc: Global, flags: &[bool], at: usize, text: &[u8]) -> Result<Vec<u8>, AllocError>
    requires { at + length text.now < 2 ^ 64 }
    ensures { IfOk result (λ left. left.items ≡ left_of_lines (drop at flags.now) text.now) }
{
    let mut left = Vec::new(alloc);
    for i in 0..text.len() {
        let is_emptied = flag_at(flags, at + i);
        let byte = text[i];
        put_left(&mut left, is_emptied, byte)?;
    }
    Ok(left)
}

/// Adds a byte, unless its line is emptied.
fn put_left(left: &mut Vec<u8>, is_emptied: bool, byte: u8) -> Result<(), AllocError>
    ensures { OnOk result (left.new.items ≡ left.old.items ++ (if is_emptied then [] else byte ∷ [])) }
{
    if is_emptied {
        return Ok(());
    }
    left.push(byte)?;
    Ok(())
}
