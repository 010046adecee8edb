// The items of a text.
ghost use Rattle.std.specs.Prelude.{◌≡◌, IfOk};
ghost use Rattle.cpp_lines.specs.Visible.{signs_of};
ghost use Rattle.cpp_lines.specs.Items.{items_of};

use crate::item::{ends_item, no_tokens, with_token};
use crate::sign::sign_of;
use crate::visible::Visible;
use c_terms::NoMemory;
use std::alloc::Global;

/// The visible tokens `first..last` of one item, by their numbers among the visible tokens. `last` is not included.
#[derive(Clone, Copy, Debug, PartialEq, Eq)]
pub struct ItemSpan {
    pub first: u32,
    pub last: u32,
}

/// Returns the items of the shown tokens. Each ends after a `;` outside all brackets, or after the `}` of a body. A body's
/// `{` is the first one outside all brackets, and is the item's first token or follows `)`. What is left at the end is one
/// item. Linear.
pub fn items(alloc: Global, visible: &Visible) -> Result<Vec<ItemSpan>, NoMemory>
    ensures { IfOk result (λ spans. spans.items ≡ items_of (signs_of visible.now)) }
{
    let lexed = visible.lexed();
    let bytes = lexed.bytes();
    let shown = visible.shown();
    let mut spans = Vec::new(alloc);
    let mut item = no_tokens();
    let mut first = 0;
    for number in 0..shown.len() {
        let piece = lexed.piece(shown[number] as usize);
        let sign = sign_of(&bytes[piece.start as usize..piece.end as usize]);
        let next = number + 1;
        if ends_item(item, sign) {
            spans.push(ItemSpan {
                first: first as u32,
                last: next as u32,
            })?;
            first = next;
            item = no_tokens();
        } else {
            item = with_token(item, sign);
        }
    }
    if first < shown.len() {
        spans.push(ItemSpan {
            first: first as u32,
            last: shown.len() as u32,
        })?;
    }
    Ok(spans)
}
