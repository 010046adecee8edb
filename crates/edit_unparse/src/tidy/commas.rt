// Commas that are left beside nothing.
ghost use Rattle.std.specs.Prelude.{ℕ, ◌≡◌, ◌≤◌, ◌+◌, ◌-◌, true, List, fold, length, get_or, map, IfOk};
ghost use Rattle.std.specs.List.{items_where_true, list_any, position_or_len, range_with_len};
ghost use Rattle.c_lexer.specs.Pieces.{TextPiece};
ghost use Rattle.edit_marks.specs.declared.edit_conflict.edit.Edit.{Edit as Change};
ghost use Rattle.edit_unparse.specs.Output.{Part};
ghost use Rattle.edit_unparse.specs.Tidy.Fallen.{LooksAs};
ghost use Rattle.edit_unparse.specs.Tidy.Commas.{is_from, sign_of};
ghost use Rattle.edit_unparse.specs.Tidy.Text.{changes, is_touched, stays, with_commas};
ghost use Rattle.edit_unparse.specs.Tidy.Plans.{placement_in};
ghost use Rattle.edit_unparse.specs.Tidy.Made.{parts_in};

use crate::tidy::brackets::{Brackets, clear_list, first_places, place_at};
use crate::tidy::bytes::has_insert;
use crate::tidy::parts::TextPart;
use crate::tidy::plan::Plan;
use crate::tidy::signs::signs_of;
use c_lexer::Lexed;
use c_terms::NoMemory;
use edit_marks::Edit;
use std::alloc::Global;
use tidy_flags::Sign;

/// A list of arguments, parameters or initialisers in the old text.
#[derive(Clone, Copy, Debug, PartialEq, Eq)]
pub struct CommaList {
    /// The tokens of its brackets.
    pub opening: u32,
    pub closing: u32,
    /// Whether a comma may stand at its end.
    pub may_end: bool,
}

/// Returns for each part whether it stays: commas of the lists beside which nothing stands go, each with the blanks behind it.
/// Takes a step for each list around a token, of which there are no more than open brackets, and else is linear.
pub fn staying(
    alloc: Global,
    lexed: &Lexed,
    edits: &[Edit],
    plan: &Plan,
    lists: &[CommaList],
    parts: &[TextPart],
) -> Result<Vec<bool>, NoMemory>
    ensures len { IfOk result (λ stays. length stays.items ≡ length parts.now) }
    ensures stays { IfOk result (λ stays. (ps : List Part) → LooksAs plan.now.pieces.items ps (parts_in lexed.now parts.now) →
        items_where_true stays.items ps
        ≡ fold (with_commas (placement_in edits.now plan.now) plan.now.pieces.items) ps lists.now) }
{
    let mut stays = vec![in alloc; true; parts.len()]?;
    let signs = signs_of(alloc, lexed, parts)?;
    let firsts = first_places(alloc, lexed.count(), parts)?;
    let all = ListParts {
        parts,
        signs: &signs,
        firsts: &firsts,
    };
    for list in lists {
        clear_touched(edits, plan, &all, &mut stays, *list);
    }
    Ok(stays)
}

/// The parts of the new text, what each is for lists, and for each old piece a place before which it doesn't stand.
#[derive(Clone, Copy)]
struct ListParts<'a> {
    parts: &'a [TextPart],
    signs: &'a [Sign],
    firsts: &'a [usize],
}

/// Clears the flags of the commas of a list that go, and of the blanks behind them, if something goes or comes in it.
fn clear_touched(
    edits: &[Edit],
    plan: &Plan,
    all: &ListParts<'_>,
    stays: &mut [bool],
    list: CommaList,
)
    requires flags { length stays.old ≡ length all.now.parts.now }
    requires signs { length all.now.signs.now ≡ length all.now.parts.now }
    ensures { (pieces : List TextPiece) (ps : List Part) → all.now.signs.now ≡ map sign_of (parts_in pieces all.now.parts.now) →
        LooksAs plan.now.pieces.items ps (parts_in pieces all.now.parts.now) →
        ((n : ℕ) → get_or all.now.firsts.now n 0
        ≤ position_or_len (λ p. is_from n p.from) (parts_in pieces all.now.parts.now)) →
        items_where_true stays.new ps
        ≡ with_commas (placement_in edits.now plan.now) plan.now.pieces.items (items_where_true stays.old ps) list }
{
    if !is_touched(edits, plan, list) {
        return;
    }
    let begin = plan.piece(list.opening as usize);
    let close = plan.piece(list.closing as usize);
    let from = place_at(all.firsts, begin);
    let brackets = Brackets { begin, close, from };
    clear_list(all.parts, all.signs, stays, brackets, list.may_end);
}

/// Whether something goes or comes in a list or at its brackets, and these stay.
fn is_touched(edits: &[Edit], plan: &Plan, list: CommaList) -> bool
    ensures { result ≡ is_touched (placement_in edits.now plan.now) plan.now.pieces.items list }
{
    if !stays(plan, list.opening) {
        return false;
    }
    if !stays(plan, list.closing) {
        return false;
    }
    changes_between(edits, plan, list.opening, list.closing)
}

/// Whether a token of the text stays.
fn stays(plan: &Plan, token: u32) -> bool
    ensures { (edits : List Change) → result ≡ stays (placement_in edits plan.now) plan.now.pieces.items token }
{
    (token as usize) < plan.count() && !plan.goes(token as usize)
}

/// Whether something goes or comes at one of the tokens from one up to another.
fn changes_between(edits: &[Edit], plan: &Plan, first: u32, last: u32) -> bool
    ensures { result ≡ list_any (changes (placement_in edits.now plan.now)) (range_with_len first (last + 1 - first)) }
{
    for token in first as usize..last as usize + 1 {
        if changes(edits, plan, token as u32) {
            return true;
        }
    }
    false
}

/// Whether a token goes, or an insert stands at its place.
fn changes(edits: &[Edit], plan: &Plan, token: u32) -> bool
    ensures { result ≡ changes (placement_in edits.now plan.now) token }
{
    plan.goes(token as usize) || has_insert(edits, plan, token)
}
