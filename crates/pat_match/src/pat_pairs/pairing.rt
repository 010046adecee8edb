// The alignment of a form's tokens in a subtree that the form fits.
ghost use Rattle.std.specs.Prelude.{◌≡◌, ℕ, suc, ◌<◌, ◌≤◌, ◌++◌, [], cond, true, false, None, IfOk, OnOk, map, drop, length, slice_index_or};
ghost use Rattle.c_terms.specs.declared.tree.Tree.{out-Tree};
ghost use Rattle.c_terms.specs.Shapes.{shape_of};
ghost use Rattle.c_terms.specs.Lists.{comma};
ghost use Rattle.smpl_terms.specs.Environments.{total};
ghost use Rattle.pat_match.specs.Runs.{is_wild, list_fits, list_pairs};
ghost use Rattle.pat_match.specs.Fitting.{leaf_of, piece, fits_tree, fits_by, pairs_by, alignment, all_fit, kids_fit, kids_pairs, first_pairs, every_pairs, zip_pairs};
ghost use Rattle.pat_match.specs.Rows.{comma_before, fits_from};
ghost use Rattle.pat_match.specs.PatPairs.Pairs.{numbers, left_pairs, IsNext};

use crate::parts::{ListChild, ListMember, fit, is_wild, list_members};
use crate::pat_pairs::bound::BoundContext;
use crate::pat_pairs::fewest::put_wild;
use crate::pat_pairs::pairs::{AlignedToken, put_comma_before, put_leaf};
use c_terms::{Label, NoMemory, Shape, Tree, comma};
use env_sets::denotes;
use std::alloc::Global;

/// Whether the form fits the tree under this environment.
fn does_fit(
    alloc: Global,
    bound: &BoundContext<'_>,
    form: &Tree,
    tree: &Tree,
) -> Result<bool, NoMemory>
    ensures { IfOk result (λ r. r
        ≡ fits_tree bound.now.context.now.decls.now bound.now.context.now.tokens.now bound.now.context.now.types.now
        (total bound.now.env.now) form.now tree.now) }
{
    let set = fit(alloc, bound.context, form, tree)?;
    Ok(denotes(&set, bound.env))
}

/// Adds what the form's tokens are aligned with in the tree, which the form fits. Each level of the form costs a few recursive
/// calls.
#[cycle(pair)]
pub fn put_pairs(
    alloc: Global,
    found: &mut Vec<AlignedToken>,
    bound: &BoundContext<'_>,
    form: &Tree,
    tree: &Tree,
) -> Result<(), NoMemory>
    requires fits { fits_tree bound.now.context.now.decls.now bound.now.context.now.tokens.now bound.now.context.now.types.now
        (total bound.now.env.now) form.now tree.now ≡ true }
    ensures { OnOk result (found.new.items ≡ found.old.items
        ++ numbers (alignment bound.now.context.now.decls.now bound.now.context.now.tokens.now bound.now.context.now.types.now
        (total bound.now.env.now) form.now tree.now)) }
{
    match form {
        Tree::Leaf(token) => put_leaf(alloc, found, token, tree),
        Tree::Branch(label, forms) => put_branch(
            alloc,
            found,
            bound,
            *label,
            forms.as_slice(),
            tree,
        ),
    }
}

#[cycle(pair)]
fn put_branch(
    alloc: Global,
    found: &mut Vec<AlignedToken>,
    bound: &BoundContext<'_>,
    label: Label,
    forms: &[Tree],
    tree: &Tree,
) -> Result<(), NoMemory>
    requires fits { fits_by bound.now.context.now.decls.now bound.now.context.now.tokens.now bound.now.context.now.types.now
        (total bound.now.env.now)
        (shape_of label) label
        (map (piece bound.now.context.now.decls.now bound.now.context.now.tokens.now bound.now.context.now.types.now (total
        bound.now.env.now)) forms.now)
        tree.now ≡ true }
    ensures { OnOk result (found.new.items ≡ found.old.items
        ++ numbers (pairs_by bound.now.context.now.decls.now bound.now.context.now.tokens.now bound.now.context.now.types.now
        (total bound.now.env.now)
        (shape_of label) label
        (map (piece bound.now.context.now.decls.now bound.now.context.now.tokens.now bound.now.context.now.types.now (total
        bound.now.env.now)) forms.now)
        tree.now)) }
{
    match label.shape() {
        Shape::Or => put_first(alloc, found, bound, forms, tree),
        Shape::And => put_every(alloc, found, bound, forms, tree),
        Shape::List => put_list(alloc, found, bound, label, forms, tree),
        Shape::Plain => put_kids(alloc, found, bound, label, forms, tree),
    }
}

/// Adds what the first branch of a disjunction that fits is aligned with.
#[cycle(pair)]
fn put_first(
    alloc: Global,
    found: &mut Vec<AlignedToken>,
    bound: &BoundContext<'_>,
    forms: &[Tree],
    tree: &Tree,
) -> Result<(), NoMemory>
    ensures { OnOk result (found.new.items ≡ found.old.items
        ++ numbers (first_pairs (map (piece bound.now.context.now.decls.now bound.now.context.now.tokens.now
        bound.now.context.now.types.now
        (total bound.now.env.now)) forms.now) tree.now)) }
{
    for form in forms {
        if does_fit(alloc, bound, form, tree)? {
            return put_pairs(alloc, found, bound, form, tree);
        }
    }
    Ok(())
}

/// Adds what the form is aligned with, if it fits.
#[cycle(pair)]
fn put_where_it_fits(
    alloc: Global,
    found: &mut Vec<AlignedToken>,
    bound: &BoundContext<'_>,
    form: &Tree,
    tree: &Tree,
) -> Result<(), NoMemory>
    ensures { OnOk result (found.new.items ≡ found.old.items
        ++ numbers (cond (fits_tree bound.now.context.now.decls.now bound.now.context.now.tokens.now
        bound.now.context.now.types.now
        (total bound.now.env.now) form.now tree.now)
        (alignment bound.now.context.now.decls.now bound.now.context.now.tokens.now bound.now.context.now.types.now (total
        bound.now.env.now) form.now tree.now)
        [])) }
{
    if does_fit(alloc, bound, form, tree)? {
        put_pairs(alloc, found, bound, form, tree)
    } else {
        Ok(())
    }
}

/// Adds what every branch of a conjunction is aligned with.
#[cycle(pair)]
fn put_every(
    alloc: Global,
    found: &mut Vec<AlignedToken>,
    bound: &BoundContext<'_>,
    forms: &[Tree],
    tree: &Tree,
) -> Result<(), NoMemory>
    ensures { OnOk result (found.new.items ≡ found.old.items
        ++ numbers (every_pairs (map (piece bound.now.context.now.decls.now bound.now.context.now.tokens.now
        bound.now.context.now.types.now
        (total bound.now.env.now)) forms.now) tree.now)) }
{
    for form in forms {
        put_where_it_fits(alloc, found, bound, form, tree)?;
    }
    Ok(())
}

#[cycle(pair)]
fn put_kids(
    alloc: Global,
    found: &mut Vec<AlignedToken>,
    bound: &BoundContext<'_>,
    label: Label,
    forms: &[Tree],
    tree: &Tree,
) -> Result<(), NoMemory>
    requires fits { kids_fit all_fit label (map (piece bound.now.context.now.decls.now bound.now.context.now.tokens.now
        bound.now.context.now.types.now
        (total bound.now.env.now)) forms.now)
        (out-Tree tree.now) ≡ true }
    ensures { OnOk result (found.new.items ≡ found.old.items
        ++ numbers (kids_pairs zip_pairs (map (piece bound.now.context.now.decls.now bound.now.context.now.tokens.now
        bound.now.context.now.types.now
        (total bound.now.env.now)) forms.now)
        (out-Tree tree.now))) }
{
    match tree {
        Tree::Leaf(_) => Ok(()),
        Tree::Branch(_, trees) => put_all(alloc, found, bound, forms, trees.as_slice()),
    }
}

/// Adds what the first form is aligned with in the first tree, and so on.
#[cycle(pair)]
fn put_all(
    alloc: Global,
    found: &mut Vec<AlignedToken>,
    bound: &BoundContext<'_>,
    forms: &[Tree],
    trees: &[Tree],
) -> Result<(), NoMemory>
    requires fits { all_fit (map (piece bound.now.context.now.decls.now bound.now.context.now.tokens.now
        bound.now.context.now.types.now
        (total bound.now.env.now)) forms.now) trees.now ≡ true }
    ensures { OnOk result (found.new.items ≡ found.old.items
        ++ numbers (zip_pairs (map (piece bound.now.context.now.decls.now bound.now.context.now.tokens.now
        bound.now.context.now.types.now
        (total bound.now.env.now)) forms.now) trees.now)) }
{
    for i in 0..forms.len() {
        put_pairs(alloc, found, bound, &forms[i], &trees[i])?;
    }
    Ok(())
}

/// Adds what a list of arguments or parameters is aligned with.
#[cycle(pair)]
fn put_list(
    alloc: Global,
    found: &mut Vec<AlignedToken>,
    bound: &BoundContext<'_>,
    label: Label,
    forms: &[Tree],
    tree: &Tree,
) -> Result<(), NoMemory>
    requires fits { kids_fit (list_fits bound.now.context.now.decls.now bound.now.context.now.tokens.now
        (total bound.now.env.now) label) label
        (map (piece bound.now.context.now.decls.now bound.now.context.now.tokens.now bound.now.context.now.types.now (total
        bound.now.env.now)) forms.now)
        (out-Tree tree.now) ≡ true }
    ensures { OnOk result (found.new.items ≡ found.old.items
        ++ numbers (kids_pairs (list_pairs bound.now.context.now.decls.now bound.now.context.now.tokens.now
        (total bound.now.env.now) label)
        (map (piece bound.now.context.now.decls.now bound.now.context.now.tokens.now bound.now.context.now.types.now (total
        bound.now.env.now)) forms.now)
        (out-Tree tree.now))) }
{
    match tree {
        Tree::Leaf(_) => Ok(()),
        Tree::Branch(_, trees) => {
            let members = list_members(alloc, trees.as_slice())?;
            put_members(alloc, found, bound, label, forms, members.as_slice())
        }
    }
}

/// Adds what the children of a pattern's list are aligned with: from the left, each takes as few members as it can.
#[cycle(pair)]
fn put_members(
    alloc: Global,
    found: &mut Vec<AlignedToken>,
    bound: &BoundContext<'_>,
    label: Label,
    forms: &[Tree],
    members: &[ListMember],
) -> Result<(), NoMemory>
    requires fits { fits_from bound.now.context.now.decls.now bound.now.context.now.tokens.now
        bound.now.context.now.types.now label None forms.now members.now
        (total bound.now.env.now) ≡ true }
    ensures { OnOk result (found.new.items ≡ found.old.items
        ++ numbers (left_pairs bound.now.context.now.decls.now bound.now.context.now.tokens.now bound.now.context.now.types.now
        (total bound.now.env.now) label None forms.now members.now)) }
{
    let mut taken: usize = 0;
    for i in 0..forms.len() {
        taken = put_next(alloc, found, bound, label, forms, i, members, taken)?;
    }
    put_comma_before(alloc, found, forms, forms.len(), &[])
}

/// Adds what the i-th child is aligned with after `taken` members. Returns the number of members taken after it.
#[cycle(pair)]
fn put_next(
    alloc: Global,
    found: &mut Vec<AlignedToken>,
    bound: &BoundContext<'_>,
    label: Label,
    forms: &[Tree],
    i: usize,
    members: &[ListMember],
    taken: usize,
) -> Result<usize, NoMemory>
    requires within { i < length forms.now }
    requires left { taken ≤ length members.now }
    requires fits { fits_from bound.now.context.now.decls.now bound.now.context.now.tokens.now
        bound.now.context.now.types.now label
        (comma_before forms.now i) (drop i forms.now)
        (drop taken members.now) (total bound.now.env.now) ≡ true }
    ensures { IfOk result (λ next. IsNext bound.now.context.now.decls.now bound.now.context.now.tokens.now
        bound.now.context.now.types.now
        (total bound.now.env.now) label forms.now i members.now taken next
        found.old.items found.new.items) }
{
    let form = &forms[i];
    match comma(form) {
        Some(_) => {
            put_comma_before(alloc, found, forms, i, &[])?;
            Ok(taken)
        }
        None => {
            if is_wild(label, form) {
                let child = ListChild {
                    label,
                    forms,
                    i,
                    form,
                };
                put_wild(alloc, found, bound, &child, members, taken)
            } else {
                put_single(alloc, found, bound, label, forms, i, form, members, taken)
            }
        }
    }
}

/// Returns the member that the child takes after `taken` members. By the contract the member exists and the child fits it.
/// The contract depends on the declarations, tokens and environment; the call reads none of them.
fn taken_member<'a, 'b>(
    bound: &BoundContext<'_>,
    child: &ListChild<'_>,
    members: &'a [ListMember<'b>],
    taken: usize,
) -> &'a ListMember<'b>
    requires within { child.now.i < length child.now.forms.now }
    requires child { child.now.form.now ≡ slice_index_or child.now.forms.now child.now.i child.now.form.now }
    requires member { comma child.now.form.now ≡ None }
    requires single { is_wild child.now.label (leaf_of (out-Tree child.now.form.now)) ≡ false }
    requires left { taken ≤ length members.now }
    requires fits { fits_from bound.now.context.now.decls.now bound.now.context.now.tokens.now
        bound.now.context.now.types.now child.now.label
        (comma_before child.now.forms.now child.now.i) (drop child.now.i child.now.forms.now)
        (drop taken members.now) (total bound.now.env.now) ≡ true }
    ensures less { taken < length members.now }
    ensures item { result.now ≡ slice_index_or members.now taken result.now }
    ensures fits { fits_tree bound.now.context.now.decls.now bound.now.context.now.tokens.now bound.now.context.now.types.now
        (total bound.now.env.now) child.now.form.now result.now.tree ≡ true }
{
    &members[taken]
}

/// Like `put_next`, for a child that takes one member.
#[cycle(pair)]
fn put_single<'x>(
    alloc: Global,
    found: &mut Vec<AlignedToken>,
    bound: &BoundContext<'_>,
    label: Label,
    forms: &'x [Tree],
    i: usize,
    form: &'x Tree,
    members: &[ListMember],
    taken: usize,
) -> Result<usize, NoMemory>
    requires within { i < length forms.now }
    requires child { form.now ≡ slice_index_or forms.now i form.now }
    requires member { comma form.now ≡ None }
    requires single { is_wild label (leaf_of (out-Tree form.now)) ≡ false }
    requires left { taken ≤ length members.now }
    requires fits { fits_from bound.now.context.now.decls.now bound.now.context.now.tokens.now
        bound.now.context.now.types.now label
        (comma_before forms.now i) (drop i forms.now)
        (drop taken members.now) (total bound.now.env.now) ≡ true }
    ensures { IfOk result (λ next. IsNext bound.now.context.now.decls.now bound.now.context.now.tokens.now
        bound.now.context.now.types.now
        (total bound.now.env.now) label forms.now i members.now taken next
        found.old.items found.new.items) }
{
    let child = ListChild {
        label,
        forms,
        i,
        form,
    };
    let member = taken_member(bound, &child, members, taken);
    put_comma_before(alloc, found, forms, i, &members[taken..taken + 1])?;
    put_pairs(alloc, found, bound, form, member.tree())?;
    Ok(taken + 1)
}
