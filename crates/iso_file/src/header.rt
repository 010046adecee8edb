// What the lines of a block are.
ghost use Rattle.std.specs.Prelude.{◌≡◌, ◌++◌, ◌<◌, length, IfOk, IfSome};
ghost use Rattle.iso_file.specs.Blocks as spec;
ghost use Rattle.iso_file.specs.Sides as sides;

use c_terms::NoMemory;
use smpl_lexer::{PatchToken, is_at, is_name, is_word};
use sqlite_items::Items;
use std::alloc::Global;

/// Whether the tokens are `@ name @`, alone on its line.
pub fn is_header(tokens: &[PatchToken]) -> bool
    ensures { result ≡ spec.is_header tokens.now }
{
    match tokens {
        [first, name, last] => is_at(first) && is_name(name) && is_at(last),
        _ => false,
    }
}

/// Whether the first of the lines is such a line.
pub fn header_next(lines: &[Items<PatchToken>]) -> bool
    ensures { result ≡ spec.header_next lines.now }
{
    match lines {
        [] => false,
        [line, ..] => is_header(line.as_slice()),
    }
}

/// Whether the tokens are `Expression`, alone on its line.
pub fn is_expression_line(tokens: &[PatchToken]) -> bool
    ensures { result ≡ sides.is_expression_line tokens.now }
{
    match tokens {
        [t] => is_word(t, b"Expression"),
        _ => false,
    }
}

/// Whether the tokens are `@@`, alone on its line.
fn is_second(tokens: &[PatchToken]) -> bool
    ensures { result ≡ sides.is_second tokens.now }
{
    match tokens {
        [first, last] => is_at(first) && is_at(last),
        _ => false,
    }
}

/// Returns the number of lines before the first line `@@`, or `None` if there is no such line.
pub fn second_at(lines: &[Items<PatchToken>]) -> Option<usize>
    ensures value { result ≡ sides.second_at lines.now }
    ensures within { IfSome result (λ n. n < length lines.now) }
{
    for i in 0..lines.len() {
        if is_second(lines[i].as_slice()) {
            return Some(i);
        }
    }
    None
}

fn push_all(
    alloc: Global,
    out: Items<PatchToken>,
    tokens: &[PatchToken],
) -> Result<Items<PatchToken>, NoMemory>
    ensures { IfOk result (λ r. r ≡ out ++ tokens.now) }
{
    let mut out = out;
    for t in tokens {
        out.push(t.copy(alloc)?)?;
    }
    Ok(out)
}

/// Returns the tokens of the lines, one line after another.
pub fn concatenated(
    alloc: Global,
    lines: &[Items<PatchToken>],
) -> Result<Items<PatchToken>, NoMemory>
    ensures { IfOk result (λ r. r ≡ sides.concatenated lines.now) }
{
    let mut out = Items::new(alloc);
    for line in lines {
        out = push_all(alloc, out, line.as_slice())?;
    }
    Ok(out)
}
