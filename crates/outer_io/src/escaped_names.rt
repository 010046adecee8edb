//! Names of files as lines and reports show them.
//!
//! - [`escaped_name`] writes bytes that would end or blur a line as escapes. A name without such bytes is shown as it is.
//! - [`names_end_no_line`] and [`names_read_back`] are laws.
//!
//! `a` newline `b.c` is shown as `a\nb.c`, and `a\b.c` as `a\\b.c`.
//!
//! Fails only when out of memory. Linear in the name; nothing recurses.
#![tactic(auto)]

ghost use Rattle.std.specs.Prelude.{◌≡◌, ◌++◌, ◌<◌, IfOk, OnOk};
ghost use Rattle.outer_io.specs.EscapedNames.Escapes as spec;

mod laws;

use c_terms::NoMemory;
pub use laws::{names_end_no_line, names_read_back};
use std::alloc::Global;

/// Returns the name as lines show it: a newline is `\n`, a tab `\t`, a backslash `\\`, and any
/// other byte below 32, and 127, is `\x` and its two hexadecimal digits.
pub fn escaped_name(alloc: Global, name: &[u8]) -> Result<Vec<u8>, NoMemory>
    ensures escaped { IfOk result (λ escaped. escaped.items ≡ spec.escaped_name name.now) }
{
    let mut escaped = Vec::new(alloc);
    for byte in name {
        put_byte(&mut escaped, *byte)?;
    }
    Ok(escaped)
}

/// Appends one byte, as lines show it.
fn put_byte(escaped: &mut Vec<u8>, byte: u8) -> Result<(), NoMemory>
    ensures { OnOk result (escaped.new.items ≡ escaped.old.items ++ spec.escaped_byte byte) }
{
    match byte {
        b'\\' => escaped.extend_from_slice(b"\\\\")?,
        b'\n' => escaped.extend_from_slice(b"\\n")?,
        b'\t' => escaped.extend_from_slice(b"\\t")?,
        0..32 | 127 => {
            let code = [b'\\', b'x', hex_digit(byte / 16), hex_digit(byte % 16)];
            escaped.extend_from_slice(&code)?;
        }
        _ => escaped.push(byte)?,
    }
    Ok(())
}

/// Returns a hexadecimal digit, in lower case.
fn hex_digit(value: u8) -> u8
    requires digit { value < 16 }
    ensures { result ≡ spec.hex_digit value }
{
    if value < 10 {
        b'0' + value
    } else {
        b'a' + (value - 10)
    }
}
