// Applies the edits of a rule to the text, and tidies it.
ghost use Rattle.std.specs.Prelude.{◌≡◌, ◌<◌, ◌≤◌, ◌^◌, ◌⊎◌, ℕ, Bool, List, [], true, All, IfOk, IfErr, length};
ghost use Rattle.c_lexer.specs.Pieces.{TextPiece, most_bytes};
ghost use Rattle.c_lexer.specs.Ids.{ids_of};
ghost use Rattle.edit_marks.specs.Edits.{HaveEvenBlocks};
ghost use Rattle.edit_marks.specs.EditWalk.Fit.{FitsText};
ghost use Rattle.edit_marks.specs.EditWalk.Touches.{touches};
ghost use Rattle.edit_marks.specs.Tidy.Walk.{AreTidyEdits};
ghost use Rattle.edit_marks.specs.declared.edit_walk.nodes.ItemNodes.{ItemNodes as Nodes};
ghost use Rattle.cpp_lines.specs.declared.reading.Item.{Item};
ghost use Rattle.smpl_patch.specs.declared.rule.Rule.{Rule as Code};
ghost use Rattle.smpl_patch.specs.declared.witness.RuleWitness.{RuleWitness as Found};
ghost use Rattle.rule_chain.specs.RuleEdits.Nodes.{nodes_of};
ghost use Rattle.edit_unparse.specs.Tidy.Plans.{IsPlan};
ghost use Rattle.edit_bodies.specs.Laid.{IsLaidOut};
ghost use Rattle.c_file.specs.ItemGraphs.Made.{IsMade};
ghost use Rattle.rule_chain.specs.RuleEdits.Pages as spec;
ghost use Rattle.rule_chain.specs.RuleEdits.Tidied.{DoNotClash, IsEditFaultBy, IsTidyEditFault, LeavesBy};
ghost use Rattle.rule_chain.specs.RuleEdits.Tidied.{TidyLeaves, tidied_page};
ghost use Rattle.rule_chain.specs.declared.rule_edits.fault.EditFault.TheVariants as fault;

use crate::rule_edits::fault::EditFault;
use crate::rule_edits::nodes::{make_all, nodes};
use crate::rule_edits::texts::{
    NewText, conflict, has_tree, id_of, is_edited, new_text, nothing_new,
};
use c_file::{CFile, Graphs};
use c_lexer::Lexed;
use c_terms::NoMemory;
use edit_bodies::{BodyFault, TidyLayout, lay_out};
use edit_marks::{EditList, Outline, TidiedEdits, first_clash, tidied_edits};
use edit_unparse::{OutFault, tidied};
use smpl_patch::{Rule, RuleWitness};
use std::alloc::Global;

/// Returns the text that the edits make under a layout of theirs. New tokens have ids from `next` on.
fn written(
    alloc: Global,
    lexed: &Lexed,
    edits: &EditList,
    laid: &TidyLayout,
    next: u64,
) -> Result<NewText, EditFault>
    requires plan { IsPlan lexed.now edits.now laid.now.layout.gone.items laid.now.layout.depths.items laid.now.plan }
    requires fresh { next ≤ 2 ^ 62 }
    ensures text { IfOk result (λ t. spec.page_in t ≡ tidied_page next lexed.now edits.now laid.now) }
    ensures short { IfOk result (λ t. length t.bytes.items ≤ most_bytes) }
    ensures fault { IfErr result (λ f. (f ≡ fault.NoMemory)
        ⊎ ((f ≡ fault.TooLong) × (most_bytes < length (tidied_page next lexed.now edits.now laid.now).bytes))) }
{
    match tidied(alloc, lexed, edits, &laid.plan, &laid.layout, next) {
        Ok(edited) => new_text(edited, next),
        Err(OutFault::TooLong) => Err(EditFault::TooLong),
        Err(OutFault::NoMemory) => Err(EditFault::NoMemory),
    }
}

/// Returns the layout of the text that edits leave which change something and of which no two clash.
fn laid_out(alloc: Global, file: &CFile, made: &TidiedEdits) -> Result<TidyLayout, EditFault>
    requires apart { DoNotClash made.now.list }
    requires edited { spec.is_edited made.now.list ≡ true }
    requires own { All (λ n. n < length (ids_of file.now.pieces)) made.now.outline.leaves.items }
    ensures laid { IfOk result (IsLaidOut file.now.pieces file.now.items made.now) }
    ensures fault { IfErr result (λ f. (f ≡ fault.NoMemory)
        ⊎ ((next : ℕ) → IsTidyEditFault next file.now.pieces file.now.items made.now f)) }
{
    let lexed = file.lexed();
    match lay_out(alloc, lexed, file.items(), made) {
        Ok(laid) => Ok(laid),
        Err(BodyFault::Body(token)) => Err(EditFault::Body(id_of(lexed, token))),
        Err(BodyFault::NoMemory) => Err(EditFault::NoMemory),
    }
}

/// Returns the tidied text that the edits leave, if one of them isn't empty.
fn text_after(
    alloc: Global,
    file: &CFile,
    made: TidiedEdits,
    next: u64,
) -> Result<Option<NewText>, EditFault>
    requires fresh { next ≤ 2 ^ 62 }
    requires fit { All (FitsText (length (ids_of file.now.pieces))) made.list }
    requires own { All (λ n. n < length (ids_of file.now.pieces)) made.outline.leaves.items }
    ensures text { IfOk result (TidyLeaves next file.now.pieces file.now.items made) }
    ensures fault { IfErr result (λ f. (f ≡ fault.NoMemory) ⊎ IsTidyEditFault next file.now.pieces file.now.items made f) }
{
    let lexed = file.lexed();
    if let Some(clash) = first_clash(&made.list) {
        let TidiedEdits { list, .. } = made;
        return Err(conflict(lexed, list, clash));
    }
    if !is_edited(made.list.edits()) {
        return Ok(nothing_new(lexed));
    }
    let laid = laid_out(alloc, file, &made)?;
    let text = written(alloc, lexed, &made.list, &laid, next)?;
    Ok(Some(text))
}

/// Returns the edits of witnesses whose forests have no tree: there are none.
fn no_edits(alloc: Global) -> Result<TidiedEdits, NoMemory>
    ensures edits { IfOk result (λ made. (found : List Found) (rule : Code) (items : List Item) (nodes : List Nodes)
        (pieces : List TextPiece) → touches found ≡ [] → AreTidyEdits found rule items nodes pieces made) }
    ensures none { IfOk result (λ made. made.list ≡ []) }
{
    Ok(TidiedEdits {
        list: EditList::of(alloc, Vec::new(alloc))?,
        statements: Vec::new(alloc),
        outline: Outline {
            leaves: Vec::new(alloc),
            bodies: Vec::new(alloc),
            statements: Vec::new(alloc),
            lists: Vec::new(alloc),
        },
    })
}

/// Returns the edits of the witnesses. If no forest has a tree, there are none, and no graph is made.
fn edits_of(
    alloc: Global,
    rule: &Rule,
    file: &CFile,
    graphs: &mut Graphs<'_>,
    found: &[RuleWitness],
) -> Result<TidiedEdits, NoMemory>
    requires even { HaveEvenBlocks rule.now.tokens }
    requires items { graphs.old.items ≡ file.now.items }
    ensures edits { IfOk result (AreTidyEdits found.now rule.now file.now.items (nodes_of rule.now file.now.items)
        file.now.pieces) }
    ensures fit { IfOk result (λ made. All (FitsText (length (ids_of file.now.pieces))) made.list) }
    ensures graphs { graphs.new.items ≡ graphs.old.items }
    ensures kept { (typed : Bool) (k : ℕ) → IsMade graphs.old typed k → IsMade graphs.new typed k }
{
    if !has_tree(found) {
        return no_edits(alloc);
    }
    let count = file.items().len();
    make_all(alloc, rule, graphs, count)?;
    let nodes = nodes(alloc, rule, graphs, count)?;
    tidied_edits(
        alloc,
        found,
        rule,
        file.items(),
        nodes.as_slice(),
        file.lexed(),
    )
}

/// Returns the tidied text after the edits of the witnesses, applied all at once, if one of them isn't empty. `next` is an id
/// such that neither it nor a larger one has been used in the file.
///
/// - `Conflict`: two edits clash; the id is that of the first token at which they do.
/// - `Body`: none clash, and what stands in the place of a body is no list of statements; the id is that of the last token of
///   such a body, the least.
/// - `TooLong`: neither, and the text would have more than 16,777,216 bytes.
/// - `NoMemory`: out of memory.
///
/// The cost is that of [`crate::rule_edits::text_after_edits`], apart from one parse of what stands in the place of each body
/// that changes.
pub fn tidied_text_after_edits(
    alloc: Global,
    rule: &Rule,
    file: &CFile,
    graphs: &mut Graphs<'_>,
    next: u64,
    found: &[RuleWitness],
) -> Result<Option<NewText>, EditFault>
    requires even { HaveEvenBlocks rule.now.tokens }
    requires fresh { next ≤ 2 ^ 62 }
    requires items { graphs.old.items ≡ file.now.items }
    ensures text { IfOk result (LeavesBy true found.now rule.now file.now.items next file.now.pieces) }
    ensures fault { IfErr result (λ f. (f ≡ fault.NoMemory)
        ⊎ IsEditFaultBy true found.now rule.now file.now.items next file.now.pieces f) }
    ensures graphs { graphs.new.items ≡ graphs.old.items }
    ensures kept { (typed : Bool) (k : ℕ) → IsMade graphs.old typed k → IsMade graphs.new typed k }
{
    let made = edits_of(alloc, rule, file, graphs, found)?;
    text_after(alloc, file, made, next)
}
