// The lines on the error output.
ghost use Rattle.std.specs.Prelude.{◌≡◌, IfOk};
ghost use Rattle.run_acts.specs.Lines.{line_of, cannot_read, cannot_write, cannot_print};

use c_terms::NoMemory;
use outer_io::escaped_name;
use std::alloc::Global;

const CANNOT_PRINT: &str = "spatch: cannot print\n";

/// Returns the line `spatch: NAME: TEXT`, with its newline, about a file or a patch. The name is escaped. Linear in the name
/// and the text.
pub fn line_of(alloc: Global, name: &str, text: &str) -> Result<Vec<u8>, NoMemory>
    ensures bytes { IfOk result (λ line. line.items ≡ line_of name.now text.now) }
{
    let mut line = Vec::new(alloc);
    line.extend_from_slice(b"spatch: ")?;
    line.extend_from_slice(&escaped_name(alloc, name.as_bytes())?)?;
    line.extend_from_slice(b": ")?;
    line.extend_from_slice(text.as_bytes())?;
    line.extend_from_slice(b"\n")?;
    Ok(line)
}

/// Returns the line about a name that cannot be read.
pub fn cannot_read(alloc: Global, name: &str) -> Result<Vec<u8>, NoMemory>
    ensures bytes { IfOk result (λ line. line.items ≡ cannot_read name.now) }
{
    line_of(alloc, name, "cannot read")
}

/// Returns the line about a name that cannot be written.
pub fn cannot_write(alloc: Global, name: &str) -> Result<Vec<u8>, NoMemory>
    ensures bytes { IfOk result (λ line. line.items ≡ cannot_write name.now) }
{
    line_of(alloc, name, "cannot write")
}

/// Returns the line about an output that failed.
pub fn cannot_print() -> &'static str
    ensures bytes { result.now ≡ cannot_print }
{
    CANNOT_PRINT
}
