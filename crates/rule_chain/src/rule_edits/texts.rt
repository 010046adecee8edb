// Applies the edits of a rule to the text.
ghost use Rattle.std.specs.Prelude.{◌≡◌, ◌<◌, ◌≤◌, ◌^◌, ◌⊎◌, ℕ, Bool, List, None, Some, All, IfOk, IfErr, length, slice_get, not, nat_lt};
ghost use Rattle.std.specs.List.{filter, list_any};
ghost use Rattle.c_lexer.specs.Pieces.{text_of, most_bytes};
ghost use Rattle.c_lexer.specs.Ids.{ids_of};
ghost use Rattle.edit_marks.specs.declared.edit_conflict.edit.Edit.{Edit as Change};
ghost use Rattle.edit_unparse.specs.NextId.{free_id};
ghost use Rattle.edit_unparse.specs.Output.{output_of};
ghost use Rattle.edit_marks.specs.EditConflict.Clashes.{IsFirstClash};
ghost use Rattle.edit_marks.specs.EditWalk.Edited.{AreEdits};
ghost use Rattle.edit_marks.specs.EditWalk.Fit.{FitsText};
ghost use Rattle.edit_marks.specs.Edits.{HaveEvenBlocks};
ghost use Rattle.c_file.specs.ItemGraphs.Made.{IsMade};
ghost use Rattle.rule_chain.specs.RuleEdits.Nodes.{nodes_of};
ghost use Rattle.rule_chain.specs.RuleEdits.Pages as spec;
ghost use Rattle.rule_chain.specs.RuleEdits.Faults.{Leaves, IsEditFault};
ghost use Rattle.rule_chain.specs.declared.rule_edits.fault.EditFault.TheVariants as fault;

use crate::rule_edits::fault::EditFault;
use crate::rule_edits::nodes::{make_all, nodes};
use c_file::{CFile, Graphs};
use c_lexer::{Lexed, PieceKind};
use edit_marks::{Clash, Edit, EditList, edits, first_clash};
use edit_unparse::{Edited, OutFault, edited_text};
use smpl_patch::{Rule, RuleWitness};
use std::alloc::Global;

/// The text that edits have left, the ids of its tokens, and an id such that neither it nor a larger one has been used in the
/// file.
#[derive(Drop)]
pub struct NewText {
    pub bytes: Vec<u8>,
    pub ids: Vec<u64>,
    pub next: u64,
}

/// Whether the edit removes or inserts anything.
fn changes(edit: &Edit) -> bool
    ensures { result ≡ spec.changes edit.now }
{
    !edit.removed.is_empty() || !edit.inserts.is_empty()
}

/// Whether some edit changes anything.
pub fn is_edited(edits: &[Edit]) -> bool
    ensures { result ≡ spec.is_edited edits.now }
{
    for edit in edits {
        if changes(edit) {
            return true;
        }
    }
    false
}

/// Whether the forest of some witness has a tree.
pub fn has_tree(found: &[RuleWitness]) -> bool
    ensures { result ≡ list_any (λ w. not (spec.is_empty w.forest)) found.now }
{
    for witness in found {
        if !witness.forest.is_empty() {
            return true;
        }
    }
    false
}

/// Returns the id of a token, given its number in this reading.
pub fn id_of(lexed: &Lexed, token: u32) -> u64
    requires { token < length (ids_of lexed.now) }
    ensures { slice_get (ids_of lexed.now) token ≡ Some result }
{
    let mut number = 0;
    for i in 0..lexed.count() {
        if let PieceKind::Word(_, id) = lexed.piece(i).kind {
            if number == token {
                return id;
            }
            number += 1;
        }
    }
    0
}

/// Returns the first clash as a fault.
pub fn conflict(lexed: &Lexed, edits: EditList, clash: Clash) -> EditFault
    requires first { IsFirstClash edits clash }
    requires fit { All (FitsText (length (ids_of lexed.now))) edits }
    ensures fault { (next : ℕ) → IsEditFault next lexed.now edits result }
{
    let id = id_of(lexed, clash.token);
    let (first, second) = edits.take(clash.first, clash.second);
    EditFault::Conflict(id, first, second)
}

/// The number of these ids that are not below `next`.
fn count_new(ids: &[u64], next: u64) -> usize
    ensures { result ≡ length (filter (λ id. not (nat_lt id next)) ids.now) }
{
    let mut count = 0;
    for id in ids {
        if *id >= next {
            count += 1;
        }
    }
    count
}

/// Returns a text with its next id. `NoMemory`: that would be 2^64 or more.
pub fn new_text(edited: Edited, next: u64) -> Result<NewText, EditFault>
    ensures bytes { IfOk result (λ t. t.bytes ≡ edited.bytes) }
    ensures ids { IfOk result (λ t. t.ids ≡ edited.ids) }
    ensures next { IfOk result (λ t. t.next ≡ free_id next edited.ids.items) }
    ensures fault { IfErr result (λ f. f ≡ fault.NoMemory) }
{
    match next.checked_add(count_new(edited.ids.as_slice(), next) as u64) {
        Some(next) => Ok(NewText {
            bytes: edited.bytes,
            ids: edited.ids,
            next,
        }),
        None => Err(EditFault::NoMemory),
    }
}

/// Returns the text that the edits make, whether or not they clash. New tokens have ids from `next` on.
fn written(alloc: Global, lexed: &Lexed, edits: &EditList, next: u64) -> Result<NewText, EditFault>
    requires fresh { next ≤ 2 ^ 62 }
    ensures text { IfOk result (λ t. spec.page_in t ≡ spec.page_of next (output_of lexed.now edits.now next)) }
    ensures short { IfOk result (λ t. length t.bytes.items ≤ most_bytes) }
    ensures fault { IfErr result (λ f. (f ≡ fault.NoMemory)
        ⊎ ((f ≡ fault.TooLong) × (most_bytes < length (text_of (output_of lexed.now edits.now next))))) }
{
    match edited_text(alloc, lexed, edits, next) {
        Ok(edited) => new_text(edited, next),
        Err(OutFault::TooLong) => Err(EditFault::TooLong),
        Err(OutFault::NoMemory) => Err(EditFault::NoMemory),
    }
}

/// Returns no new text: the old one, which is short enough, stays.
pub fn nothing_new(lexed: &Lexed) -> Option<NewText>
    ensures none { result ≡ None }
    ensures short { length (text_of lexed.now) ≤ most_bytes }
{
    // The contract of this call says that the text is short enough, which the proof needs.
    let _text = lexed.bytes();
    None
}

/// Returns the text that the edits leave, if one of them isn't empty.
fn text_after(
    alloc: Global,
    lexed: &Lexed,
    list: EditList,
    next: u64,
) -> Result<Option<NewText>, EditFault>
    requires fresh { next ≤ 2 ^ 62 }
    requires fit { All (FitsText (length (ids_of lexed.now))) list }
    ensures text { IfOk result (λ left. Leaves next lexed.now list left) }
    ensures fault { IfErr result (λ f. (f ≡ fault.NoMemory) ⊎ IsEditFault next lexed.now list f) }
{
    if let Some(clash) = first_clash(&list) {
        return Err(conflict(lexed, list, clash));
    }
    if !is_edited(list.edits()) {
        return Ok(nothing_new(lexed));
    }
    match written(alloc, lexed, &list, next) {
        Ok(text) => Ok(Some(text)),
        Err(fault) => Err(fault),
    }
}

/// Returns the text after the edits of the witnesses, applied all at once, if one of them isn't empty. `next` is an id such
/// that neither it nor a larger one has been used in the file.
///
/// - `Conflict`: two edits clash; the id is that of the first token at which they do.
/// - `TooLong`: none clash, and the text would have more than 16,777,216 bytes.
/// - `NoMemory`: out of memory.
///
/// If the forest of some witness has a tree, the graphs of all items are made, with types if the rule asks for them, and the
/// cost is linear in the text, apart from that of the edits. No forest has a tree if no token of the rule is marked and all its
/// variables are inherited or exported: then nothing is edited, and the cost is linear in the witnesses.
pub fn text_after_edits(
    alloc: Global,
    rule: &Rule,
    file: &CFile,
    graphs: &mut Graphs<'_>,
    next: u64,
    found: &[RuleWitness],
) -> Result<Option<NewText>, EditFault>
    requires even { HaveEvenBlocks rule.now.tokens }
    requires fresh { next ≤ 2 ^ 62 }
    requires items { graphs.old.items ≡ file.now.items }
    ensures text { IfOk result (λ left. (edits : List Change)
        × (AreEdits found.now rule.now file.now.items (nodes_of rule.now file.now.items) file.now.pieces edits
        × Leaves next file.now.pieces edits left)) }
    ensures fault { IfErr result (λ f. (f ≡ fault.NoMemory) ⊎ ((edits : List Change)
        × (AreEdits found.now rule.now file.now.items (nodes_of rule.now file.now.items) file.now.pieces edits
        × IsEditFault next file.now.pieces edits f))) }
    ensures graphs { graphs.new.items ≡ graphs.old.items }
    ensures kept { (typed : Bool) (k : ℕ) → IsMade graphs.old typed k → IsMade graphs.new typed k }
{
    if !has_tree(found) {
        return Ok(nothing_new(file.lexed()));
    }
    let count = file.items().len();
    make_all(alloc, rule, graphs, count)?;
    let nodes = nodes(alloc, rule, graphs, count)?;
    let list = edits(
        alloc,
        found,
        rule,
        file.items(),
        nodes.as_slice(),
        file.lexed(),
    )?;
    text_after(alloc, file.lexed(), list, next)
}
