// The edit of one touch.
ghost use Rattle.std.specs.Prelude.{◌≡◌, ◌≤◌, ◌^◌, IfOk, length, map};
ghost use Rattle.std.specs.Option.{option_copied, option_map};
ghost use Rattle.edit_marks.specs.EditWalk.Touches.{Touched};
ghost use Rattle.edit_marks.specs.EditWalk.Named as spec;
ghost use Rattle.edit_marks.specs.EditWalk.Nodes.{kind_at, types_at};
ghost use Rattle.edit_marks.specs.EditWalk.WalkContexts.{IsWalkContext, IsEditHere, patterns_at};

use crate::edit_conflict::Edit;
use crate::edit_walk::aligned::numbered;
use crate::edit_walk::context::WalkContext;
use crate::edit_walk::nodes::ItemNodes;
use crate::edit_walk::numbers::Numbers;
use crate::{Aligned, edit_of};
use c_terms::{NoMemory, Tree, TreePath, subtree};
use c_types::KnownTypes;
use cfg_build::NodeKind;
use cpp_lines::Item;
use pat_match::parts::role_at;
use pat_match::{AlignedToken, PatternContext, aligned_tokens};
use smpl_patch::Pattern;
use smpl_terms::Env;
use sqlite_items::at;
use std::alloc::Global;

fn pattern_of<'a>(patterns: &'a [&'a Pattern], atoms: &Numbers, atom: u32) -> Option<&'a Pattern>
    requires { atoms.now ≡ map (λ p. p.atom) (map (λ p. p.now) patterns.now) }
    ensures { option_copied result ≡ spec.pattern_of (map (λ p. p.now) patterns.now) atom }
{
    let number = atoms.find(u64::from(atom))?;
    Some(patterns[number])
}

fn kind_at(nodes: &[ItemNodes<'_>], item: u32, node: u32) -> Option<NodeKind>
    ensures { result ≡ kind_at nodes.now item node }
{
    let own = at(nodes, item as usize)?;
    own.kinds.get(node as usize).copied()
}

/// Returns what is known of the types of an item's expressions.
fn types_at<'g>(nodes: &[ItemNodes<'g>], item: u32) -> KnownTypes<'g>
    ensures { result ≡ types_at nodes.now item }
{
    match at(nodes, item as usize) {
        Some(own) => own.types.again(),
        None => KnownTypes::none(),
    }
}

fn tree_at<'a>(items: &'a [Item], item: u32, path: &TreePath) -> Option<&'a Tree>
    ensures { option_copied result ≡ spec.tree_at items.now item path.now }
{
    match at(items, item as usize)? {
        Item::Parsed(tree) => subtree(tree, path.steps()),
        Item::Skipped(_, _) => None,
    }
}

/// Returns what is aligned at a touch.
fn alignment(
    alloc: Global,
    context: &WalkContext<'_>,
    env: &Env,
    item: u32,
    node: u32,
    atom: u32,
    path: &TreePath,
) -> Result<Option<Vec<AlignedToken>>, NoMemory>
    requires { IsWalkContext context.now }
    ensures { IfOk result (λ found. option_map (λ f. f.items) found
        ≡ spec.alignment (patterns_at context.now) context.now.decls.now context.now.tokens.now context.now.items.now
        context.now.nodes.now context.now.ids.now
        (record { item = item; node = node; atom = atom; path = path.now; env = env.now })) }
{
    let Some(pattern) = pattern_of(context.patterns, context.atoms, atom) else {
        return Ok(None);
    };
    let Some(kind) = kind_at(context.nodes, item, node) else {
        return Ok(None);
    };
    let Some(tree) = tree_at(context.items, item, path) else {
        return Ok(None);
    };
    let role = role_at(kind, path.steps());
    let types = types_at(context.nodes, item);
    let pattern_context = PatternContext {
        decls: context.decls,
        tokens: context.tokens,
        types: &types,
    };
    aligned_tokens(alloc, pattern, &pattern_context, role, tree, env)
}

fn pairs_of(
    alloc: Global,
    ids: &Numbers,
    found: Option<Vec<AlignedToken>>,
) -> Result<Vec<Aligned>, NoMemory>
    requires { length ids.now ≤ 2 ^ 32 }
    ensures { IfOk result (λ pairs. pairs.items
        ≡ spec.pairs_of ids.now (option_map (λ f. f.items) found)) }
{
    match found {
        None => Ok(Vec::new(alloc)),
        Some(found) => numbered(alloc, ids, &found),
    }
}

/// Returns the pairs of numbers at a touch: none if nothing is aligned there.
pub fn pairs_at_touch(
    alloc: Global,
    context: &WalkContext<'_>,
    env: &Env,
    item: u32,
    node: u32,
    atom: u32,
    path: &TreePath,
) -> Result<Vec<Aligned>, NoMemory>
    requires { IsWalkContext context.now }
    ensures { IfOk result (λ pairs. pairs.items
        ≡ spec.pairs_at (patterns_at context.now) context.now.decls.now context.now.tokens.now context.now.items.now
        context.now.nodes.now context.now.ids.now
        (record { item = item; node = node; atom = atom; path = path.now; env = env.now })) }
{
    let found = alignment(alloc, context, env, item, node, atom, path)?;
    pairs_of(alloc, context.ids, found)
}

/// Returns the edit of a touch.
pub fn touch_edit(
    alloc: Global,
    context: &WalkContext<'_>,
    env: &Env,
    item: u32,
    node: u32,
    atom: u32,
    path: &TreePath,
) -> Result<Edit, NoMemory>
    requires { IsWalkContext context.now }
    ensures { IfOk result (IsEditHere context.now
        (record { item = item; node = node; atom = atom; path = path.now; env = env.now })) }
{
    let pairs = pairs_at_touch(alloc, context, env, item, node, atom, path)?;
    let edit = edit_of(
        alloc,
        context.decls,
        context.tokens,
        env,
        context.files,
        &pairs,
    )?;
    Ok(edit)
}
