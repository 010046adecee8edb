// Which tokens are shown.
ghost use Rattle.std.specs.Prelude.{◌≡◌, ◌≤◌, length, IfOk};
ghost use Rattle.c_lexer.specs.Pieces.{most_bytes};
ghost use Rattle.cpp_lines.specs.Shown.{AreShown};

use crate::directive::read_directive;
use crate::group::{all_shown, read_line};
use crate::mask::{is_masked, mask_with, no_mask};
use crate::sign::sign_of;
use crate::visible::Visible;
use c_lexer::{Lexed, PieceKind};
use c_terms::NoMemory;
use std::alloc::Global;

/// Returns the text with the numbers of its shown tokens: those in the shown arm of each group of preprocessor lines
/// around them, except markers such as `__init` and `__attribute__` with its bracket group.
///
/// Linear. Each open group takes 2 bytes.
pub fn arms(alloc: Global, lexed: Lexed) -> Result<Visible, NoMemory>
    ensures lexed { IfOk result (λ visible. visible.pieces ≡ lexed) }
    ensures shown { IfOk result (λ visible. AreShown lexed visible.shown) }
{
    let shown = shown_tokens(alloc, &lexed)?;
    Ok(Visible { lexed, shown })
}

/// Returns the numbers of the shown tokens.
fn shown_tokens(alloc: Global, lexed: &Lexed) -> Result<Vec<u32>, NoMemory>
    ensures shown { IfOk result (λ shown. AreShown lexed.now shown.items) }
    ensures short { IfOk result (λ _. length lexed.now ≤ most_bytes) }
{
    let bytes = lexed.bytes();
    let mut groups = Vec::new(alloc);
    let mut mask = no_mask();
    let mut shown = Vec::new(alloc);
    for i in 0..lexed.count() {
        let piece = lexed.piece(i);
        let text = &bytes[piece.start as usize..piece.end as usize];
        match piece.kind {
            PieceKind::Line => read_line(&mut groups, read_directive(text))?,
            PieceKind::Word(_, _) => {
                if all_shown(&groups) {
                    let sign = sign_of(text);
                    if !is_masked(mask, sign) {
                        shown.push(i as u32)?;
                    }
                    mask = mask_with(mask, sign);
                }
            }
            PieceKind::Blank => {}
            PieceKind::Comment => {}
        }
    }
    Ok(shown)
}
