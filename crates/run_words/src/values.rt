// The values of options.
ghost use Rattle.std.specs.Prelude.{◌≡◌, ◌≤◌, ◌==◌, not, length, option_map, IfOk};
ghost use Rattle.std.specs.List.{prefix_len};
ghost use Rattle.run_words.specs.Values.{number_in, seed_in, count_in, unread_in, is_c_name, names_in};

use c_lexer::{Kind, first_piece};
use c_terms::{NoMemory, Text};
use run_choices::Unread;
use std::alloc::Global;

/// Returns the decimal number that the digits represent, if they are all digits and it is less than 2^64.
fn decimal(digits: &[u8]) -> Option<u64>
    ensures { result ≡ number_in digits.now }
{
    let mut n: u64 = 0;
    for b in digits {
        if !b.is_ascii_digit() {
            return None;
        }
        n = n.checked_mul(10)?.checked_add(u64::from(*b - b'0'))?;
    }
    Some(n)
}

/// Parses a seed: one to twenty digits.
pub fn seed(text: &str) -> Option<u64>
    ensures { result ≡ seed_in text.now }
{
    let digits = text.as_bytes();
    if digits.is_empty() || digits.len() > 20 {
        return None;
    }
    decimal(digits)
}

/// Parses a number from 1 to `most`, without leading zeros.
pub fn count(text: &str, most: u64) -> Option<u64>
    ensures { result ≡ count_in most text.now }
{
    let digits = text.as_bytes();
    if digits.is_empty() || digits[0] == b'0' {
        return None;
    }
    let n = decimal(digits)?;
    if n <= most { Some(n) } else { None }
}

/// Parses a choice of the items that can't be read: `all`, `needed` or `none`.
pub fn unread(text: &str) -> Option<Unread>
    ensures { result ≡ unread_in text.now }
{
    match text {
        "all" => Some(Unread::All),
        "needed" => Some(Unread::Needed),
        "none" => Some(Unread::None),
        _ => None,
    }
}

/// Whether a text is a name of C: an identifier that isn't a keyword.
fn is_c_name(text: &[u8]) -> bool
    ensures { result ≡ is_c_name text.now }
{
    if text.is_empty() {
        return false;
    }
    let (kind, len) = first_piece(text);
    match kind {
        Kind::Name => len == text.len(),
        _ => false,
    }
}

/// Returns the position of the first comma in a text, or of its end.
fn name_end(text: &[u8]) -> usize
    ensures within { result ≤ length text.now }
    ensures first { result ≡ prefix_len (λ b. not (b == 44)) text.now }
{
    text.iter().take_while(|b| **b != b',').count()
}

/// Returns the names that are separated by commas, if each is a name of C.
pub fn names(alloc: Global, text: &[u8]) -> Result<Option<Vec<Text>>, NoMemory>
    ensures { IfOk result (λ names. option_map (λ list. list.items) names ≡ names_in text.now) }
{
    let mut names = Vec::new(alloc);
    let mut start = 0;
    'texts: loop {
        let rest = &text[start..];
        let end = name_end(rest);
        if !is_c_name(&rest[..end]) {
            return Ok(None);
        }
        names.push(Text::from_bytes(alloc, &rest[..end])?)?;
        if end == rest.len() {
            return Ok(Some(names));
        }
        start += end + 1;
    }
}
