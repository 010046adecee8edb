// The alignment of a pattern at a subtree of a node.
ghost use Rattle.std.specs.Prelude.{◌≡◌, ◌++◌, true, IfOk, OnOk};
ghost use Rattle.std.specs.Option.{option_copied, option_map};
ghost use Rattle.c_terms.specs.declared.tree.Tree.{out-Tree};
ghost use Rattle.smpl_terms.specs.Environments.{total};
ghost use Rattle.smpl_patch.specs.declared.pattern.Spot.TheVariants as spot;
ghost use Rattle.pat_match.specs.Fitting.{fits_tree, alignment};
ghost use Rattle.pat_match.specs.Spots as at;
ghost use Rattle.pat_match.specs.PatPairs.Pairs as spec;

use crate::context::{PatternContext, PatternForm};
use crate::parts::{NodeRole, close_brace, fits_seat, is_close_brace, is_open_brace, open_brace};
use crate::pat_pairs::bound::BoundContext;
use crate::pat_pairs::own::put_own;
use crate::pat_pairs::pairing::put_pairs;
use crate::pat_pairs::pairs::AlignedToken;
use c_terms::{NoMemory, Token, Tree};
use cfg_build::NodeKind;
use smpl_patch::{Pattern, Spot};
use smpl_terms::Env;
use std::alloc::Global;

fn put_brace(
    alloc: Global,
    found: &mut Vec<AlignedToken>,
    bound: &BoundContext<'_>,
    form: &Tree,
    brace: Option<&Tree>,
) -> Result<(), NoMemory>
    requires fits { at.option_fits (fits_tree bound.now.context.now.decls.now bound.now.context.now.tokens.now
        bound.now.context.now.types.now
        (total bound.now.env.now) form.now)
        (option_copied brace) ≡ true }
    ensures { OnOk result (found.new.items ≡ found.old.items
        ++ spec.numbers (at.option_pairs (alignment bound.now.context.now.decls.now bound.now.context.now.tokens.now
        bound.now.context.now.types.now
        (total bound.now.env.now) form.now)
        (option_copied brace.entry))) }
{
    match brace {
        Some(brace) => put_pairs(alloc, found, bound, form, brace),
        None => Ok(()),
    }
}

fn put_token_whole(
    alloc: Global,
    found: &mut Vec<AlignedToken>,
    bound: &BoundContext<'_>,
    kind: NodeKind,
    token: &Token,
    form: &Tree,
    tree: &Tree,
) -> Result<(), NoMemory>
    requires fits { at.token_whole bound.now.context.now.decls.now bound.now.context.now.tokens.now
        bound.now.context.now.types.now
        (total bound.now.env.now) kind token.now form.now tree.now ≡ true }
    ensures { OnOk result (found.new.items ≡ found.old.items
        ++ spec.numbers (at.token_alignment bound.now.context.now.decls.now bound.now.context.now.tokens.now
        bound.now.context.now.types.now
        (total bound.now.env.now) kind token.now form.now tree.now)) }
{
    if is_open_brace(token) {
        put_brace(alloc, found, bound, form, open_brace(kind, tree))
    } else if is_close_brace(token) {
        put_brace(alloc, found, bound, form, close_brace(kind, tree))
    } else {
        put_pairs(alloc, found, bound, form, tree)
    }
}

fn put_branch_whole(
    alloc: Global,
    found: &mut Vec<AlignedToken>,
    bound: &BoundContext<'_>,
    kind: NodeKind,
    form: &Tree,
    tree: &Tree,
) -> Result<(), NoMemory>
    requires fits { at.branch_whole bound.now.context.now.decls.now bound.now.context.now.tokens.now
        bound.now.context.now.types.now
        (total bound.now.env.now) kind form.now tree.now ≡ true }
    ensures { OnOk result (found.new.items ≡ found.old.items
        ++ spec.numbers (at.branch_alignment bound.now.context.now.decls.now bound.now.context.now.tokens.now
        bound.now.context.now.types.now
        (total bound.now.env.now) kind form.now tree.now)) }
{
    match kind {
        NodeKind::Simple => put_pairs(alloc, found, bound, form, tree),
        NodeKind::Head => put_own(alloc, found, bound, NodeKind::Head, form, tree),
        NodeKind::FunHead => put_own(alloc, found, bound, NodeKind::FunHead, form, tree),
        _ => Ok(()),
    }
}

fn put_whole(
    alloc: Global,
    found: &mut Vec<AlignedToken>,
    bound: &BoundContext<'_>,
    kind: NodeKind,
    form: &Tree,
    tree: &Tree,
) -> Result<(), NoMemory>
    requires fits { at.whole_at bound.now.context.now.decls.now bound.now.context.now.tokens.now
        bound.now.context.now.types.now (total bound.now.env.now) kind
        (out-Tree form.now) form.now tree.now ≡ true }
    ensures { OnOk result (found.new.items ≡ found.old.items
        ++ spec.numbers (at.whole_alignment bound.now.context.now.decls.now bound.now.context.now.tokens.now
        bound.now.context.now.types.now
        (total bound.now.env.now) kind (out-Tree form.now) form.now tree.now)) }
{
    match form {
        Tree::Leaf(token) => put_token_whole(alloc, found, bound, kind, token, form, tree),
        Tree::Branch(_, _) => put_branch_whole(alloc, found, bound, kind, form, tree),
    }
}

fn put_tail(
    alloc: Global,
    found: &mut Vec<AlignedToken>,
    bound: &BoundContext<'_>,
    kind: NodeKind,
    form: &Tree,
    tree: &Tree,
) -> Result<(), NoMemory>
    requires fits { at.fits_at bound.now.context.now.decls.now bound.now.context.now.tokens.now bound.now.context.now.types.now
        (total bound.now.env.now) spot.Tail kind form.now tree.now ≡ true }
    ensures { OnOk result (found.new.items ≡ found.old.items
        ++ spec.numbers (at.alignment_at bound.now.context.now.decls.now bound.now.context.now.tokens.now
        bound.now.context.now.types.now
        (total bound.now.env.now) spot.Tail kind form.now tree.now)) }
{
    put_own(alloc, found, bound, NodeKind::DoTail, form, tree)
}

/// Returns what a form of this spot is aligned with in a subtree that it fits.
fn pairs_at(
    alloc: Global,
    bound: &BoundContext<'_>,
    spot: Spot,
    kind: NodeKind,
    form: &Tree,
    tree: &Tree,
) -> Result<Vec<AlignedToken>, NoMemory>
    requires fits { at.fits_at bound.now.context.now.decls.now bound.now.context.now.tokens.now bound.now.context.now.types.now
        (total bound.now.env.now) spot kind form.now tree.now ≡ true }
    ensures { IfOk result (λ r. r.items
        ≡ spec.numbers (at.alignment_at bound.now.context.now.decls.now bound.now.context.now.tokens.now
        bound.now.context.now.types.now
        (total bound.now.env.now) spot kind form.now tree.now)) }
{
    let mut found = Vec::new(alloc);
    match spot {
        Spot::Whole => put_whole(alloc, &mut found, bound, kind, form, tree)?,
        Spot::Tail => put_tail(alloc, &mut found, bound, kind, form, tree)?,
        Spot::Inside => put_pairs(alloc, &mut found, bound, form, tree)?,
    }
    Ok(found)
}

/// Returns the tokens that are aligned if the pattern matches the subtree at a node of this role, in the order of the form:
/// those of the first form that fits. Returns `None` if no form fits. For a pattern of spot Whole or Tail the subtree is that
/// of the node; otherwise it is a part of the node that `align` reports.
///
/// Each disjunction in the form costs as much as `solve` does for its branches, and each dots or list variable in a list as
/// much as `solve` does for the members after it. Each level costs a few recursive calls.
pub fn aligned_tokens<'x>(
    alloc: Global,
    p: &Pattern,
    context: &'x PatternContext<'x>,
    role: NodeRole,
    tree: &Tree,
    env: &'x Env,
) -> Result<Option<Vec<AlignedToken>>, NoMemory>
    ensures exact { IfOk result (λ r. option_map (λ found. found.items) r
        ≡ spec.aligned_tokens context.now.decls.now context.now.tokens.now context.now.types.now (total env.now) p.now role
        tree.now) }
{
    let bound = BoundContext { context, env };
    let forms = p.forms.as_slice();
    for i in 0..forms.len() {
        let form = &forms[i];
        let choice = PatternForm {
            pattern: p,
            number: i,
            tree: form,
        };
        if fits_seat(alloc, &choice, context, role, tree, env)? {
            let found = pairs_at(alloc, &bound, p.spot, role.kind, form, tree)?;
            return Ok(Some(found));
        }
    }
    Ok(None)
}
