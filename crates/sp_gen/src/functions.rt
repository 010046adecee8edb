// Statements, functions, and the whole text.
ghost use Rattle.std.specs.Prelude.{◌≡◌, ◌++◌, ◌≤◌, ◌<◌, ◌≢◌, ℕ, length, codes, OnOk, IfOk};
ghost use Rattle.std.specs.Fmt.{decimal};
ghost use Rattle.sp_gen.specs.Generated.{statement_text, statement, after_statement, statements, after_statements, function, generated};

use crate::draws::Draws;
use c_terms::NoMemory;
use std::alloc::Global;

/// The draw that represents an assignment of a number.
const ASSIGNMENT: u32 = 3;

/// Returns the text that is generated from a seed, with this many functions.
///
/// Linear in the text; each function has at most 142 bytes. Fails only when out of memory. The format is the project's own.
pub fn generate(alloc: Global, seed: u64, functions: u32) -> Result<Vec<u8>, NoMemory>
    ensures text { IfOk result (λ text. text.items ≡ generated seed functions) }
    ensures fits_a_file { functions ≤ 100000 → IfOk result (λ text. length text.items ≤ 16777216) }
{
    let mut draws = Draws::new(seed);
    let mut text = Vec::new(alloc);
    for k in 0..functions {
        put_function(alloc, &mut text, k, &mut draws)?;
    }
    Ok(text)
}

fn put_function(
    alloc: Global,
    text: &mut Vec<u8>,
    k: u32,
    draws: &mut Draws,
) -> Result<(), NoMemory>
    ensures text { OnOk result (text.new.items ≡ text.old.items ++ function k draws.old.state) }
    ensures state { OnOk result (draws.new.state ≡ after_statements 6 draws.old.state) }
{
    put(text, b"void f")?;
    put_number(alloc, text, k)?;
    put(text, b"(int a)\n{\n")?;
    put_statements(alloc, text, draws)?;
    put(text, b"}\n")
}

fn put_statements(alloc: Global, text: &mut Vec<u8>, draws: &mut Draws) -> Result<(), NoMemory>
    ensures text { OnOk result (text.new.items ≡ text.old.items ++ statements 6 draws.old.state) }
    ensures state { OnOk result (draws.new.state ≡ after_statements 6 draws.old.state) }
{
    for _ in 0..6u32 {
        put_statement(alloc, text, draws)?;
    }
    Ok(())
}

fn put_statement(alloc: Global, text: &mut Vec<u8>, draws: &mut Draws) -> Result<(), NoMemory>
    ensures text { OnOk result (text.new.items ≡ text.old.items ++ statement draws.old.state) }
    ensures state { OnOk result (draws.new.state ≡ after_statement draws.old.state) }
{
    let drawn = draws.draw(6);
    if drawn == ASSIGNMENT {
        return put_assignment(alloc, text, draws.draw(10));
    }
    put(text, plain_text(drawn))
}

/// Returns the statement that a draw represents, if the statement contains no number.
fn plain_text(drawn: u32) -> &'static [u8]
    requires below { drawn < 6 }
    requires plain { drawn ≢ 3 }
    ensures { result.now ≡ statement_text drawn 0 }
{
    match drawn {
        0 => b"\tlock(a);\n",
        1 => b"\tif (a)\n\t\treturn;\n",
        2 => b"\tunlock(a);\n",
        4 => b"\twhile (a)\n\t\th(a);\n",
        _ => b"\tx = p(a);\n",
    }
}

fn put_assignment(alloc: Global, text: &mut Vec<u8>, n: u32) -> Result<(), NoMemory>
    ensures { OnOk result (text.new.items ≡ text.old.items ++ (codes "\ta = g(a, " ++ decimal n ++ codes ");\n")) }
{
    put(text, b"\ta = g(a, ")?;
    put_number(alloc, text, n)?;
    put(text, b");\n")
}

fn put_number(alloc: Global, text: &mut Vec<u8>, n: u32) -> Result<(), NoMemory>
    ensures { OnOk result (text.new.items ≡ text.old.items ++ decimal n) }
{
    let digits = format!(in alloc; "{n}")?;
    put(text, digits.as_bytes())
}

fn put(text: &mut Vec<u8>, bytes: &[u8]) -> Result<(), NoMemory>
    ensures { OnOk result (text.new.items ≡ text.old.items ++ bytes.now) }
{
    text.extend_from_slice(bytes)?;
    Ok(())
}
