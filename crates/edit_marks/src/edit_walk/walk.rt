// The walk over witnesses.
ghost use Rattle.std.specs.Prelude.{◌≡◌, All, length, map, IfOk, OnOk};
ghost use Rattle.std.specs.List.{flat_map, AllZip};
ghost use Rattle.c_lexer.specs.Ids.{ids_of};
ghost use Rattle.edit_marks.specs.Edits.{HaveEvenBlocks, ArePlainInserts};
ghost use Rattle.edit_marks.specs.EditWalk.Touches.{bound, touches_in, touches_of, touches};
ghost use Rattle.edit_marks.specs.EditWalk.Edited.{IsEditAt, AreEdits};
ghost use Rattle.edit_marks.specs.EditWalk.Fit.{FitsText, HaveSoundTouches};
ghost use Rattle.edit_marks.specs.EditWalk.Growing.{Adds};
ghost use Rattle.edit_marks.specs.EditWalk.WalkContexts.{IsWalkContext, IsEditHere};

use crate::FileTokens;
use crate::edit_conflict::{Edit, EditList};
use crate::edit_walk::context::WalkContext;
use crate::edit_walk::nodes::ItemNodes;
use crate::edit_walk::numbers::Numbers;
use crate::edit_walk::patterns::patterns_of;
use crate::edit_walk::tokens::token_ids;
use crate::edit_walk::touch::touch_edit;
use c_lexer::Lexed;
use c_terms::NoMemory;
use cpp_lines::Item;
use smpl_patch::{Pattern, Rule, RuleWitness, Witness};
use smpl_terms::{Env, Value, Var};
use std::alloc::Global;

/// Returns the edits of the witnesses of a rule, one per touch, in the order of the touches, keeping the first of several
/// equal ones.
///
/// `items` are those of the text, and `nodes` has for each item what is needed of its graph, none for an item without
/// a tree. The precondition on plus code is tested by [`have_even_blocks`](crate::have_even_blocks). Linear in the
/// text, in the body of the rule and in the forests, apart from the alignment and the edit of each touch, and from each
/// bind, which copies the environment above it.
pub fn edits(
    alloc: Global,
    witnesses: &[RuleWitness],
    rule: &Rule,
    items: &[Item],
    nodes: &[ItemNodes<'_>],
    lexed: &Lexed,
) -> Result<EditList, NoMemory>
    requires even { HaveEvenBlocks rule.now.tokens }
    ensures edits { IfOk result (AreEdits witnesses.now rule.now items.now nodes.now lexed.now) }
    ensures fit { IfOk result (λ edits. All (FitsText (length (ids_of lexed.now))) edits) }
    ensures plain { IfOk result (λ edits. HaveSoundTouches rule.now (touches witnesses.now) →
        All (λ edit. ArePlainInserts edit.inserts) edits) }
{
    let list = edit_list(alloc, witnesses, rule, items, nodes, lexed)?;
    Ok(list)
}

fn edit_list(
    alloc: Global,
    witnesses: &[RuleWitness],
    rule: &Rule,
    items: &[Item],
    nodes: &[ItemNodes<'_>],
    lexed: &Lexed,
) -> Result<EditList, NoMemory>
    requires { HaveEvenBlocks rule.now.tokens }
    ensures { IfOk result (AreEdits witnesses.now rule.now items.now nodes.now lexed.now) }
{
    let all = all_edits(alloc, witnesses, rule, items, nodes, lexed)?;
    let list = EditList::of(alloc, all)?;
    Ok(list)
}

/// Returns the edits of all touches. Makes no table for a text without a witness.
fn all_edits(
    alloc: Global,
    witnesses: &[RuleWitness],
    rule: &Rule,
    items: &[Item],
    nodes: &[ItemNodes<'_>],
    lexed: &Lexed,
) -> Result<Vec<Edit>, NoMemory>
    requires { HaveEvenBlocks rule.now.tokens }
    ensures { IfOk result (λ all. AllZip (IsEditAt rule.now items.now nodes.now lexed.now)
        (touches witnesses.now) all.items) }
{
    let mut all = Vec::new(alloc);
    if witnesses.is_empty() {
        return Ok(all);
    }
    let patterns = patterns_of(alloc, rule.body.as_slice())?;
    let atoms = Numbers::of(alloc, atoms_of(alloc, &patterns)?)?;
    let files = FileTokens::of(alloc, lexed)?;
    let ids = Numbers::of(alloc, token_ids(alloc, lexed)?)?;
    let context = WalkContext {
        decls: rule.vars.as_slice(),
        tokens: rule.tokens.as_slice(),
        patterns: &patterns,
        atoms: &atoms,
        items,
        nodes,
        files: &files,
        ids: &ids,
    };
    put_witnesses(alloc, &context, witnesses, &mut all)?;
    Ok(all)
}

pub(crate) fn atoms_of(alloc: Global, patterns: &[&Pattern]) -> Result<Vec<u64>, NoMemory>
    ensures { IfOk result (λ atoms. atoms.items
        ≡ map (λ p. p.atom) (map (λ p. p.now) patterns.now)) }
{
    let mut atoms = Vec::with_capacity(alloc, patterns.len())?;
    for pattern in patterns {
        atoms.push(u64::from(pattern.atom))?;
    }
    Ok(atoms)
}

fn put_witnesses(
    alloc: Global,
    context: &WalkContext<'_>,
    witnesses: &[RuleWitness],
    edits: &mut Vec<Edit>,
) -> Result<(), NoMemory>
    requires { IsWalkContext context.now }
    ensures { OnOk result (Adds (IsEditHere context.now) edits.old.items edits.new.items
        (touches witnesses.now)) }
{
    for witness in witnesses {
        put_witness(alloc, context, witness, edits)?;
    }
    Ok(())
}

fn put_witness(
    alloc: Global,
    context: &WalkContext<'_>,
    witness: &RuleWitness,
    edits: &mut Vec<Edit>,
) -> Result<(), NoMemory>
    requires { IsWalkContext context.now }
    ensures { OnOk result (Adds (IsEditHere context.now) edits.old.items edits.new.items
        (touches_of witness.now)) }
{
    let forest = witness.forest.as_slice();
    put_forest(alloc, context, witness.item, &witness.env, forest, edits)
}

fn put_forest(
    alloc: Global,
    context: &WalkContext<'_>,
    item: u32,
    env: &Env,
    forest: &[Witness],
    edits: &mut Vec<Edit>,
) -> Result<(), NoMemory>
    requires { IsWalkContext context.now }
    ensures { OnOk result (Adds (IsEditHere context.now) edits.old.items edits.new.items
        (flat_map (touches_in item env.now) forest.now)) }
{
    for tree in forest {
        put_tree(alloc, context, item, env, tree, edits)?;
    }
    Ok(())
}

/// Adds the edits of the touches of a tree that was found under these values. Recurses once per level.
fn put_tree(
    alloc: Global,
    context: &WalkContext<'_>,
    item: u32,
    env: &Env,
    tree: &Witness,
    edits: &mut Vec<Edit>,
) -> Result<(), NoMemory>
    requires { IsWalkContext context.now }
    ensures { OnOk result (Adds (IsEditHere context.now) edits.old.items edits.new.items
        (touches_in item env.now tree.now)) }
{
    match tree {
        Witness::Touch(node, atom, path) => {
            let edit = touch_edit(alloc, context, env, item, *node, *atom, path)?;
            edits.push(edit)?;
            Ok(())
        }
        Witness::Bind(_, x, value, under) => {
            let deeper = bound(alloc, env, x, value)?;
            let inner = &deeper;
            for below in under.as_slice() {
                put_tree(alloc, context, item, inner, below, edits)?;
            }
            Ok(())
        }
    }
}

/// Returns the environment with one more value. A variable that already has a value keeps it.
pub(crate) fn bound(alloc: Global, env: &Env, x: &Var, value: &Value) -> Result<Env, NoMemory>
    ensures { IfOk result (λ more. more ≡ bound env.now x.now value.now) }
{
    if env.has(x) {
        let same = env.copy(alloc)?;
        return Ok(same);
    }
    let more = env.with(alloc, x, value)?;
    Ok(more)
}
