// Whether lines of plus code have as many gaps as tokens.
ghost use Rattle.std.specs.Prelude.{◌≡◌, ◌↔◌, IsTrue};
ghost use Rattle.std.specs.List.{list_all};
ghost use Rattle.edit_marks.specs.Edits.{HaveEvenBlocks};
ghost use Rattle.edit_marks.specs.Even.{is_even_line, is_even_block, is_even_side, is_even_token};

use smpl_patch::{PatToken, PlusBlock, PlusLine};

/// Whether each line of plus code of these tokens has as many gaps as tokens, as [`edit_of`](crate::edit_of) requires.
/// Linear in the lines; takes no memory.
pub fn have_even_blocks(tokens: &[PatToken]) -> bool
    ensures { IsTrue result ↔ HaveEvenBlocks tokens.now }
{
    let are_even = all_even(tokens);
    are_even
}

fn all_even(tokens: &[PatToken]) -> bool
    ensures { result ≡ list_all is_even_token tokens.now }
{
    tokens.iter().all(|token| is_even_side(&token.before) && is_even_side(&token.after))
}

fn is_even_side(block: &Option<PlusBlock>) -> bool
    ensures { result ≡ is_even_side block.now }
{
    match block {
        None => true,
        Some(block) => is_even_block(block),
    }
}

fn is_even_block(block: &PlusBlock) -> bool
    ensures { result ≡ is_even_block block.now }
{
    block.lines.as_slice().iter().all(|line| is_even_line(line))
}

fn is_even_line(line: &PlusLine) -> bool
    ensures { result ≡ is_even_line line.now }
{
    line.gaps.len() == line.tokens.len()
}
