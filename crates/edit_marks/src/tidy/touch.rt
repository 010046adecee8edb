// The edit of one touch.
ghost use Rattle.std.specs.Prelude.{◌≡◌, ◌≤◌, length, take, IfOk};
ghost use Rattle.std.specs.Option.{option_copied};
ghost use Rattle.edit_marks.specs.EditWalk.Touches.{Touched};
ghost use Rattle.edit_marks.specs.EditWalk.WalkContexts.{IsWalkContext, patterns_at};
ghost use Rattle.edit_marks.specs.Tidy.Edits.{touch_of};
ghost use Rattle.edit_marks.specs.Tidy.Reach.{without_last};
ghost use Rattle.edit_marks.specs.Tidy.Touch as spec;

use crate::edit_conflict::Edit;
use crate::edit_walk::{WalkContext, pairs_at_touch};
use crate::tidy::depth::{AtomDepth, outermost};
use crate::tidy::edit::{TouchLocation, tidied_edit};
use crate::tidy::place::tree_of;
use c_terms::{NoMemory, TreePath};
use smpl_patch::{Pattern, Spot};
use smpl_terms::Env;
use std::alloc::Global;

/// The statement that the pattern of a touch names: the one around which the pattern has no braces.
#[derive(Drop)]
pub struct PatternStatement {
    pub item: u32,
    pub path: TreePath,
}

/// The edit of a touch, and the statement that its pattern names.
#[derive(Drop)]
pub struct TouchEdit {
    pub edit: Edit,
    pub statement: PatternStatement,
}

/// What the walk needs of a rule and of a file, with the depths of the rule's patterns.
#[derive(Clone, Copy)]
pub struct TidyContext<'a> {
    pub walk: WalkContext<'a>,
    pub depths: &'a [AtomDepth],
}

/// Where a touch is: its item, node, atom, and path.
#[derive(Clone, Copy)]
pub struct TouchPlace<'a> {
    pub item: u32,
    pub node: u32,
    pub atom: u32,
    pub path: &'a TreePath,
}

/// Returns the edit of a touch, and the statement that its pattern names.
pub fn tidied_touch(
    alloc: Global,
    context: &TidyContext<'_>,
    env: &Env,
    place: TouchPlace<'_>,
) -> Result<TouchEdit, NoMemory>
    requires { IsWalkContext context.now.walk }
    ensures { IfOk result (spec.IsTidyTouchHere context.now
        (record { item = place.entry.item; node = place.entry.node; atom = place.entry.atom; path = place.entry.path.now; env = env.now })) }
{
    let walk = &context.walk;
    let pairs = pairs_at_touch(
        alloc, walk, env, place.item, place.node, place.atom, place.path,
    )?;
    let at = location(context, place);
    let edit = tidied_edit(alloc, walk.decls, walk.tokens, env, &at, &pairs)?;
    let statement = statement(alloc, place, at.depth.around)?;
    Ok(TouchEdit { edit, statement })
}

fn statement(
    alloc: Global,
    place: TouchPlace<'_>,
    around: u32,
) -> Result<PatternStatement, NoMemory>
    ensures item { IfOk result (λ s. s.item ≡ place.entry.item) }
    ensures path { IfOk result (λ s. s.path ≡ without_last around place.entry.path.now) }
{
    let steps = place.path.steps();
    let length = steps.len().saturating_sub(around as usize);
    let path = front(alloc, steps, length)?;
    Ok(PatternStatement {
        item: place.item,
        path,
    })
}

/// Returns the first numbers of a path.
fn front(alloc: Global, steps: &[u32], count: usize) -> Result<TreePath, NoMemory>
    requires { count ≤ length steps.now }
    ensures { IfOk result (λ path. path ≡ take count steps.now) }
{
    let own = Vec::from_slice(alloc, &steps[..count])?;
    Ok(TreePath::of(own))
}

fn location<'a>(context: &TidyContext<'a>, place: TouchPlace<'a>) -> TouchLocation<'a>
    requires { IsWalkContext context.now.walk }
    ensures files { result.files.now ≡ context.now.walk.files.now }
    ensures ids { result.ids.now ≡ context.now.walk.ids.now }
    ensures touch { (t : Touched) → t.item ≡ place.entry.item → t.atom ≡ place.entry.atom → t.path ≡ place.entry.path.now →
        touch_of result ≡ spec.touch_at (patterns_at context.now.walk) context.now.walk.items.now context.now.depths.now t }
{
    TouchLocation {
        files: context.walk.files,
        ids: context.walk.ids,
        tree: tree_of(context.walk.items, place.item),
        path: place.path.steps(),
        depth: depth_at(context, place.atom),
        is_inside: is_inside_at(context, place.atom),
    }
}

fn depth_at(context: &TidyContext<'_>, atom: u32) -> AtomDepth
    requires { IsWalkContext context.now.walk }
    ensures { result ≡ spec.depth_at (patterns_at context.now.walk) context.now.depths.now atom }
{
    match context.walk.atoms.find(u64::from(atom)) {
        Some(number) => depth_or_outermost(context.depths.get(number)),
        None => outermost(),
    }
}

fn depth_or_outermost(depth: Option<&AtomDepth>) -> AtomDepth
    ensures { result ≡ spec.depth_of (option_copied depth.entry) }
{
    match depth {
        Some(depth) => *depth,
        None => outermost(),
    }
}

fn is_inside_at(context: &TidyContext<'_>, atom: u32) -> bool
    requires { IsWalkContext context.now.walk }
    ensures { result ≡ spec.inside_at (patterns_at context.now.walk) atom }
{
    match context.walk.atoms.find(u64::from(atom)) {
        Some(number) => is_inside_pattern(context.walk.patterns[number]),
        None => false,
    }
}

fn is_inside_pattern(pattern: &Pattern) -> bool
    ensures { result ≡ spec.is_inside pattern.now.spot }
{
    matches!(pattern.spot, Spot::Inside)
}
