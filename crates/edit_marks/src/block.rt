// The text of a block of plus code.
ghost use Rattle.std.specs.Prelude.{◌≡◌, ◌++◌, All, length, OnOk, IfOk, Some, None};
ghost use Rattle.edit_marks.specs.Blocks.{least_lead, lead_of, least_with, block_text, last_of_lines, AreEven};

use crate::line::put_line;
use c_terms::{NoMemory, Text, Token};
use smpl_patch::{PlusBlock, PlusLine, VarDecl};
use smpl_terms::Env;
use std::alloc::Global;

/// Adds the text of a block whose lines are joined by these bytes, and returns its last token. Linear in the text.
pub fn put_block(
    alloc: Global,
    decls: &[VarDecl],
    env: &Env,
    joint: &[u8],
    block: &PlusBlock,
    out: &mut Vec<u8>,
) -> Result<Option<Text>, NoMemory>
    requires { AreEven block.now.lines }
    ensures text { OnOk result (out.new.items ≡ out.old.items ++ block_text decls.now env.now joint.now block.now) }
    ensures last { IfOk result (λ token. token ≡ last_of_lines decls.now env.now None block.now.lines) }
{
    let lines = block.lines.as_slice();
    let lead = least_lead(lines);
    let mut last = None;
    for (i, line) in lines.iter().enumerate() {
        if i > 0 {
            out.extend_from_slice(joint)?;
        }
        last = put_line(alloc, decls, env, lead, line, last, out)?;
    }
    Ok(last)
}

/// Returns the least number of blanks at the start of a line that has a token.
pub fn least_lead(lines: &[PlusLine]) -> usize
    ensures { result ≡ lead_of (least_lead None lines.now) }
{
    let mut least = None;
    for line in lines {
        least = least_with(least, line.tokens.as_slice(), line.lead);
    }
    match least {
        Some(lead) => lead as usize,
        None => 0,
    }
}

fn least_with(least: Option<u32>, tokens: &[Token], lead: u32) -> Option<u32>
    ensures { result ≡ least_with least tokens.now lead }
{
    if tokens.is_empty() {
        return least;
    }
    match least {
        None => Some(lead),
        Some(least) => Some(least.min(lead)),
    }
}
