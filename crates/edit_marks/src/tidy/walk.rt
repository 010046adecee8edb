// The tidied edits of witnesses.
ghost use Rattle.std.specs.Prelude.{◌≡◌, ◌++◌, [], All, IfOk, OnOk, length, map, slice_get};
ghost use Rattle.std.specs.List.{flat_map, zip};
ghost use Rattle.c_lexer.specs.Ids.{ids_of};
ghost use Rattle.edit_marks.specs.Edits.{HaveEvenBlocks, ArePlainInserts};
ghost use Rattle.edit_marks.specs.EditConflict.Once.{number_in, once};
ghost use Rattle.edit_marks.specs.EditWalk.Touches.{touches, touches_in, touches_of};
ghost use Rattle.edit_marks.specs.EditWalk.Fit.{FitsText, HaveSoundTouches};
ghost use Rattle.edit_marks.specs.EditWalk.Growing.{Adds};
ghost use Rattle.edit_marks.specs.EditWalk.WalkContexts.{IsWalkContext};
ghost use Rattle.edit_marks.specs.Tidy.Bodies.{without_flagged};
ghost use Rattle.edit_marks.specs.Tidy.Touch.{IsTidyTouchHere};
ghost use Rattle.edit_marks.specs.Tidy.Walk.{AreInOrder, AreTidyEdits, is_empty, pair_if, touched_of};

use crate::FileTokens;
use crate::edit_conflict::{Edit, EditList};
use crate::edit_walk::{ItemNodes, Numbers, WalkContext, atoms_of, bound, patterns_of, token_ids};
use crate::tidy::bodies::{changes_of, staying, without};
use crate::tidy::depth::depths_of;
use crate::tidy::shape::{Outline, outline_of};
use crate::tidy::touch::{PatternStatement, TidyContext, TouchEdit, TouchPlace, tidied_touch};
use c_lexer::Lexed;
use c_terms::NoMemory;
use cpp_lines::Item;
use smpl_patch::{Rule, RuleWitness, Witness};
use smpl_terms::Env;
use std::alloc::Global;

/// The edits of witnesses where the text is tidied, and what their new text depends on.
#[derive(Drop)]
pub struct TidiedEdits {
    pub list: EditList,
    /// The statements that the patterns of the touches name, each with the number of its edit.
    pub statements: Vec<(usize, PatternStatement)>,
    /// The outline of the items that are touched.
    pub outline: Outline,
}

/// Returns the edits of the witnesses of a rule where the text is tidied, one per touch, in the order of the touches, keeping
/// the first of several equal ones.
///
/// `items` are those of the text, and `nodes` has for each item what is needed of its graph. Linear in the text, in the
/// body of the rule, in the touched items and in the forests, apart from the alignment and the edit of each touch, and from
/// each bind, which copies the environment above it.
pub fn tidied_edits(
    alloc: Global,
    witnesses: &[RuleWitness],
    rule: &Rule,
    items: &[Item],
    nodes: &[ItemNodes<'_>],
    lexed: &Lexed,
) -> Result<TidiedEdits, NoMemory>
    requires even { HaveEvenBlocks rule.now.tokens }
    ensures edits { IfOk result (AreTidyEdits witnesses.now rule.now items.now nodes.now lexed.now) }
    ensures fit { IfOk result (λ made. All (FitsText (length (ids_of lexed.now))) made.list) }
    ensures plain { IfOk result (λ made. HaveSoundTouches rule.now (touches witnesses.now) →
        All (λ edit. ArePlainInserts edit.inserts) made.list) }
{
    let made = made_edits(alloc, witnesses, rule, items, nodes, lexed)?;
    Ok(made)
}

fn made_edits(
    alloc: Global,
    witnesses: &[RuleWitness],
    rule: &Rule,
    items: &[Item],
    nodes: &[ItemNodes<'_>],
    lexed: &Lexed,
) -> Result<TidiedEdits, NoMemory>
    requires { HaveEvenBlocks rule.now.tokens }
    ensures { IfOk result (AreTidyEdits witnesses.now rule.now items.now nodes.now lexed.now) }
{
    let patterns = patterns_of(alloc, rule.body.as_slice())?;
    let atoms = Numbers::of(alloc, atoms_of(alloc, &patterns)?)?;
    let files = FileTokens::of(alloc, lexed)?;
    let ids = Numbers::of(alloc, token_ids(alloc, lexed)?)?;
    let depths = depths_of(alloc, rule.body.as_slice(), rule.tokens.as_slice())?;
    let context = TidyContext {
        walk: WalkContext {
            decls: rule.vars.as_slice(),
            tokens: rule.tokens.as_slice(),
            patterns: &patterns,
            atoms: &atoms,
            items,
            nodes,
            files: &files,
            ids: &ids,
        },
        depths: &depths,
    };
    let touched = all_touches(alloc, &context, witnesses)?;
    let own = touched_items(alloc, &touched)?;
    let outline = outline_of(alloc, items, &own, &ids)?;
    let changes = changes_of(alloc, files.count(), &touched)?;
    let stays = staying(alloc, &outline, &changes)?;
    let made = listed(alloc, touched, &stays, outline)?;
    Ok(made)
}

/// Returns the list of the edits, with the statements of each.
fn listed(
    alloc: Global,
    touches: Vec<TouchEdit>,
    stays: &[bool],
    outline: Outline,
) -> Result<TidiedEdits, NoMemory>
    ensures list { IfOk result (λ made. made.list ≡ once (map (λ t. without_flagged stays.now t.edit) touches.items)) }
    ensures statements { IfOk result (λ made. made.statements.items
        ≡ zip (map (number_in made.list) (map (λ t. without_flagged stays.now t.edit) touches.items)) (map (λ t. t.statement) touches.items)) }
    ensures outline { IfOk result (λ made. made.outline ≡ outline) }
{
    let EditsWithStatements { edits, statements } = parted(alloc, touches, stays)?;
    let (list, numbers) = EditList::numbered(alloc, edits)?;
    let statements = zipped(alloc, &numbers, statements)?;
    Ok(TidiedEdits {
        list,
        statements,
        outline,
    })
}

/// The edits of touches, and their statements.
#[derive(Drop)]
struct EditsWithStatements {
    edits: Vec<Edit>,
    statements: Vec<PatternStatement>,
}

/// Returns the edits of touches, without the removal of tokens that stay, and their statements.
fn parted(
    alloc: Global,
    touches: Vec<TouchEdit>,
    stays: &[bool],
) -> Result<EditsWithStatements, NoMemory>
    ensures edits { IfOk result (λ p. p.edits.items ≡ map (λ t. without_flagged stays.now t.edit) touches.items) }
    ensures statements { IfOk result (λ p. p.statements.items ≡ map (λ t. t.statement) touches.items) }
{
    let mut edits = Vec::with_capacity(alloc, touches.len())?;
    let mut statements = Vec::with_capacity(alloc, touches.len())?;
    for touch in touches {
        let TouchEdit { edit, statement } = touch;
        edits.push(without(alloc, edit, stays)?)?;
        statements.push(statement)?;
    }
    Ok(EditsWithStatements { edits, statements })
}

/// Returns each statement with the number at its place.
fn zipped(
    alloc: Global,
    numbers: &[usize],
    statements: Vec<PatternStatement>,
) -> Result<Vec<(usize, PatternStatement)>, NoMemory>
    ensures { IfOk result (λ pairs. pairs.items ≡ zip numbers.now statements.items) }
{
    let mut pairs = Vec::with_capacity(alloc, numbers.len())?;
    let mut at = 0;
    for statement in statements {
        put_pair(numbers, at, statement, &mut pairs)?;
        at += 1;
    }
    Ok(pairs)
}

/// Adds a statement with the number at this place, if there is one.
fn put_pair(
    numbers: &[usize],
    at: usize,
    statement: PatternStatement,
    pairs: &mut Vec<(usize, PatternStatement)>,
) -> Result<(), NoMemory>
    ensures { OnOk result (pairs.new.items ≡ pairs.old.items ++ pair_if (slice_get numbers.now at) statement) }
{
    match numbers.get(at) {
        Some(number) => {
            pairs.push((*number, statement))?;
            Ok(())
        }
        None => Ok(()),
    }
}

/// Returns the items in which an edit does something, each once, in order. Takes n log n steps for n touches.
fn touched_items(alloc: Global, touches: &[TouchEdit]) -> Result<Vec<u32>, NoMemory>
    ensures { IfOk result (λ items. AreInOrder (touched_of touches.now) items.items) }
{
    let mut items = all_touched(alloc, touches)?;
    items.sort_unstable();
    items.dedup();
    Ok(items)
}

fn all_touched(alloc: Global, touches: &[TouchEdit]) -> Result<Vec<u32>, NoMemory>
    ensures { IfOk result (λ items. items.items ≡ touched_of touches.now) }
{
    let mut items = Vec::new(alloc);
    for touch in touches {
        if !is_empty(&touch.edit) {
            items.push(touch.statement.item)?;
        }
    }
    Ok(items)
}

fn is_empty(edit: &Edit) -> bool
    ensures { result ≡ is_empty edit.now }
{
    edit.removed.is_empty() && edit.inserts.is_empty()
}

/// Returns the edits of all touches, each with its statement.
fn all_touches(
    alloc: Global,
    context: &TidyContext<'_>,
    witnesses: &[RuleWitness],
) -> Result<Vec<TouchEdit>, NoMemory>
    requires { IsWalkContext context.now.walk }
    ensures { IfOk result (λ all. Adds (IsTidyTouchHere context.now) [] all.items (touches witnesses.now)) }
{
    let mut all = Vec::new(alloc);
    for witness in witnesses {
        put_witness(alloc, context, witness, &mut all)?;
    }
    Ok(all)
}

fn put_witness(
    alloc: Global,
    context: &TidyContext<'_>,
    witness: &RuleWitness,
    touches: &mut Vec<TouchEdit>,
) -> Result<(), NoMemory>
    requires { IsWalkContext context.now.walk }
    ensures { OnOk result (Adds (IsTidyTouchHere context.now) touches.old.items touches.new.items
        (touches_of witness.now)) }
{
    let forest = witness.forest.as_slice();
    put_forest(alloc, context, witness.item, &witness.env, forest, touches)
}

fn put_forest(
    alloc: Global,
    context: &TidyContext<'_>,
    item: u32,
    env: &Env,
    forest: &[Witness],
    touches: &mut Vec<TouchEdit>,
) -> Result<(), NoMemory>
    requires { IsWalkContext context.now.walk }
    ensures { OnOk result (Adds (IsTidyTouchHere context.now) touches.old.items touches.new.items
        (flat_map (touches_in item env.now) forest.now)) }
{
    for tree in forest {
        put_tree(alloc, context, item, env, tree, touches)?;
    }
    Ok(())
}

/// Adds the edits of the touches of a tree that was found under these values. Recurses once per level.
fn put_tree(
    alloc: Global,
    context: &TidyContext<'_>,
    item: u32,
    env: &Env,
    tree: &Witness,
    touches: &mut Vec<TouchEdit>,
) -> Result<(), NoMemory>
    requires { IsWalkContext context.now.walk }
    ensures { OnOk result (Adds (IsTidyTouchHere context.now) touches.old.items touches.new.items
        (touches_in item env.now tree.now)) }
{
    match tree {
        Witness::Touch(node, atom, path) => {
            let place = TouchPlace {
                item,
                node: *node,
                atom: *atom,
                path,
            };
            let touch = tidied_touch(alloc, context, env, place)?;
            touches.push(touch)?;
            Ok(())
        }
        Witness::Bind(_, x, value, under) => {
            let deeper = bound(alloc, env, x, value)?;
            let inner = &deeper;
            for below in under.as_slice() {
                put_tree(alloc, context, item, inner, below, touches)?;
            }
            Ok(())
        }
    }
}
