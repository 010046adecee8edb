// Names on the output.
ghost use Rattle.std.specs.Prelude.{◌≡◌, ◌++◌, codes, IfOk, OnOk};
ghost use Rattle.std.specs.List.{flat_map, list_any};
ghost use Rattle.run_files.specs.RunLines.Names as spec;

use c_terms::NoMemory;
use std::alloc::Global;
use wit_print::TextBuffer;

/// Whether a byte stands in names in quotes only.
fn is_special(byte: u8) -> bool
    ensures { result ≡ spec.is_special byte }
{
    byte < 32 || (byte == 34 || (byte == 92 || byte == 127))
}

fn has_special(name: &[u8]) -> bool
    ensures { result ≡ list_any spec.is_special name.now }
{
    name.iter().any(|byte| is_special(*byte))
}

/// Appends a byte of a name in quotes.
fn put_byte(line: &mut TextBuffer, byte: u8) -> Result<(), NoMemory>
    ensures { OnOk result (line.new ≡ line.old ++ spec.quoted_byte byte) }
{
    match byte {
        7 => line.put(b"\\a"),
        8 => line.put(b"\\b"),
        9 => line.put(b"\\t"),
        10 => line.put(b"\\n"),
        11 => line.put(b"\\v"),
        12 => line.put(b"\\f"),
        13 => line.put(b"\\r"),
        34 => line.put(b"\\\""),
        92 => line.put(b"\\\\"),
        0..32 | 127 => {
            let code = [
                b'\\',
                b'0' + byte / 64,
                b'0' + byte / 8 % 8,
                b'0' + byte % 8,
            ];
            line.put(&code)
        }
        _ => line.put(&[byte]),
    }
}

fn put_bytes(line: &mut TextBuffer, name: &[u8]) -> Result<(), NoMemory>
    ensures { OnOk result (line.new ≡ line.old ++ flat_map spec.quoted_byte name.now) }
{
    for byte in name {
        put_byte(line, *byte)?;
    }
    Ok(())
}

fn put_quoted(line: &mut TextBuffer, name: &[u8]) -> Result<(), NoMemory>
    ensures { OnOk result (line.new ≡ line.old ++ (codes "\"" ++ flat_map spec.quoted_byte name.now ++ codes "\"")) }
{
    line.put(b"\"")?;
    put_bytes(line, name)?;
    line.put(b"\"")
}

/// Appends a name as it is: or in quotes, if one of its bytes is special.
fn put_name(line: &mut TextBuffer, name: &[u8]) -> Result<(), NoMemory>
    ensures { OnOk result (line.new ≡ line.old ++ spec.quoted_name name.now) }
{
    if has_special(name) {
        put_quoted(line, name)
    } else {
        line.put(name)
    }
}

/// Returns a line of the name of a file. A name with a byte below the blank, a quote, a backslash or byte 127 stands in quotes,
/// and each of these as git writes it.
///
/// Linear in the name. Fails only when out of memory.
pub fn named_line(alloc: Global, name: &str) -> Result<Vec<u8>, NoMemory>
    ensures bytes { IfOk result (λ line. line.items ≡ spec.quoted_name name.now ++ codes "\n") }
{
    let mut line = TextBuffer::new(alloc);
    put_name(&mut line, name.as_bytes())?;
    line.put(b"\n")?;
    Ok(line.finish())
}
