// The environments under which a form fits a subtree.
ghost use Rattle.std.specs.Prelude.{◌≡◌, ℕ, Bool, true, false, not, ◌&&◌, ◌||◌, IfOk, map, length, suc, take, drop, Option, None, Some, ◌<◌, ◌≤◌, List, [], ◌∷◌, slice_index_or};
ghost use Rattle.std.specs.List.{list_any, list_all};
ghost use Rattle.c_terms.specs.declared.tree.Tree.{out-Tree};
ghost use Rattle.c_terms.specs.Shapes.{shape_of};
ghost use Rattle.smpl_terms.specs.Environments.{Environment};
ghost use Rattle.smpl_terms.specs.declared.var.Var.{Var};
ghost use Rattle.env_sets.specs.Sets.{set_denotes, set_vars};
ghost use Rattle.pat_match.specs.Runs.{is_wild, comma_fits, single_fits, list_fits};
ghost use Rattle.pat_match.specs.Fitting.{leaf_of, is_bare_sign, is_sign_token, all_fit, kids_fit, fits_by, piece, fits_tree};
ghost use Rattle.pat_match.specs.Vars.{form_vars};
ghost use Rattle.pat_match.specs.Rows.{comma_before, first_is_wild, row_at, row_vars, single_entry, IsStep, IsRow, fits_from};

use crate::context::PatternContext;
use crate::lengths::is_too_long;
use crate::lists::{
    ListChild, ListMember, fit_comma_before, is_bare_before, is_wild, is_wild_at, list_members,
};
use crate::rows::{RowEntry, fit_some_run, fit_wild_row, last_row, push_entry};
use crate::sets::{all_or_none, both, is_none, put_set, union};
use crate::signs::{has_bare_signs, has_other_token, is_sign_tree};
use crate::tokens::fit_leaf;
use c_terms::{Label, NoMemory, Shape, Tree, comma};
use env_sets::EnvSet;
use std::alloc::Global;

/// Returns the environments in which the form fits the tree. Each level of the form costs a few recursive calls.
#[cycle(fit)]
pub fn fit(
    alloc: Global,
    context: &PatternContext<'_>,
    form: &Tree,
    tree: &Tree,
) -> Result<EnvSet, NoMemory>
    ensures meaning { IfOk result (λ r. (env : Environment) → set_denotes r env
        ≡ fits_tree context.now.decls.now context.now.tokens.now context.now.types.now env form.now tree.now) }
    ensures vars { IfOk result (λ r. (t : Var → Bool) → form_vars context.now.decls.now context.now.tokens.now t form.now
        ≡ true → set_vars t r ≡ true) }
{
    match form {
        Tree::Leaf(token) => fit_leaf(alloc, context, token, tree),
        Tree::Branch(label, forms) => fit_branch(alloc, context, *label, forms.as_slice(), tree),
    }
}

#[cycle(fit)]
fn fit_branch(
    alloc: Global,
    context: &PatternContext<'_>,
    label: Label,
    forms: &[Tree],
    tree: &Tree,
) -> Result<EnvSet, NoMemory>
    ensures meaning { IfOk result (λ r. (env : Environment) → set_denotes r env
        ≡ fits_by context.now.decls.now context.now.tokens.now context.now.types.now env (shape_of label) label
        (map (piece context.now.decls.now context.now.tokens.now context.now.types.now env) forms.now) tree.now) }
    ensures vars { IfOk result (λ r. (t : Var → Bool)
        → list_all (form_vars context.now.decls.now context.now.tokens.now t) forms.now ≡ true →
        set_vars t r ≡ true) }
{
    match label.shape() {
        Shape::Or => fit_some(alloc, context, forms, tree),
        Shape::And => fit_every(alloc, context, forms, tree),
        Shape::List => fit_list(alloc, context, label, forms, tree),
        Shape::Plain => fit_kids(alloc, context, label, forms, tree),
    }
}

/// Returns the environments in which some branch of a disjunction fits.
#[cycle(fit)]
fn fit_some(
    alloc: Global,
    context: &PatternContext<'_>,
    forms: &[Tree],
    tree: &Tree,
) -> Result<EnvSet, NoMemory>
    ensures meaning { IfOk result (λ r. (env : Environment) → set_denotes r env
        ≡ (list_all (λ f. is_bare_sign context.now.tokens.now (leaf_of (out-Tree f))) forms.now
        && list_any (λ f. fits_tree context.now.decls.now context.now.tokens.now context.now.types.now env f tree.now)
        forms.now)) }
    ensures vars { IfOk result (λ r. (t : Var → Bool)
        → list_all (form_vars context.now.decls.now context.now.tokens.now t) forms.now ≡ true →
        set_vars t r ≡ true) }
{
    if !has_bare_signs(context.tokens, forms) {
        return Ok(EnvSet::none(alloc));
    }
    let mut entries = Vec::new(alloc);
    for form in forms {
        let here = fit(alloc, context, form, tree)?;
        put_set(&mut entries, here)?;
    }
    union(alloc, entries)
}

/// Returns the environments in which every branch of a conjunction fits. Stops at the first branch that fits in none.
#[cycle(fit)]
fn fit_every(
    alloc: Global,
    context: &PatternContext<'_>,
    forms: &[Tree],
    tree: &Tree,
) -> Result<EnvSet, NoMemory>
    ensures meaning { IfOk result (λ r. (env : Environment) → set_denotes r env
        ≡ (list_all (λ f. is_bare_sign context.now.tokens.now (leaf_of (out-Tree f))) forms.now
        && list_all (λ f. is_sign_token (leaf_of (out-Tree f))
        || fits_tree context.now.decls.now context.now.tokens.now context.now.types.now env f tree.now) forms.now)) }
    ensures vars { IfOk result (λ r. (t : Var → Bool)
        → list_all (form_vars context.now.decls.now context.now.tokens.now t) forms.now ≡ true →
        set_vars t r ≡ true) }
{
    if !has_bare_signs(context.tokens, forms) {
        return Ok(EnvSet::none(alloc));
    }
    let mut out = EnvSet::all(alloc)?;
    for form in forms {
        if is_none(&out) {
            return Ok(out);
        }
        if !is_sign_tree(form) {
            let here = fit(alloc, context, form, tree)?;
            out = both(alloc, out, here)?;
        }
    }
    Ok(out)
}

/// Returns the environments in which a branch fits child by child.
#[cycle(fit)]
fn fit_kids(
    alloc: Global,
    context: &PatternContext<'_>,
    label: Label,
    forms: &[Tree],
    tree: &Tree,
) -> Result<EnvSet, NoMemory>
    ensures meaning { IfOk result (λ r. (env : Environment) → set_denotes r env
        ≡ kids_fit all_fit label (map (piece context.now.decls.now context.now.tokens.now context.now.types.now env)
        forms.now) (out-Tree tree.now)) }
    ensures vars { IfOk result (λ r. (t : Var → Bool)
        → list_all (form_vars context.now.decls.now context.now.tokens.now t) forms.now ≡ true →
        set_vars t r ≡ true) }
{
    match tree {
        Tree::Leaf(_) => Ok(EnvSet::none(alloc)),
        Tree::Branch(other, trees) => {
            if label.number() != other.number() {
                return Ok(EnvSet::none(alloc));
            }
            fit_all(alloc, context, forms, trees.as_slice())
        }
    }
}

/// Returns the environments in which the first form fits the first tree, and so on. Compares tokens first, since a variable
/// copies its tree. Stops at the first form that fits in no environment.
#[cycle(fit)]
fn fit_all(
    alloc: Global,
    context: &PatternContext<'_>,
    forms: &[Tree],
    trees: &[Tree],
) -> Result<EnvSet, NoMemory>
    ensures meaning { IfOk result (λ r. (env : Environment) → set_denotes r env
        ≡ all_fit (map (piece context.now.decls.now context.now.tokens.now context.now.types.now env) forms.now) trees.now) }
    ensures vars { IfOk result (λ r. (t : Var → Bool)
        → list_all (form_vars context.now.decls.now context.now.tokens.now t) forms.now ≡ true →
        set_vars t r ≡ true) }
{
    if forms.len() != trees.len() {
        return Ok(EnvSet::none(alloc));
    }
    if has_other_token(forms, trees) {
        return Ok(EnvSet::none(alloc));
    }
    let mut out = EnvSet::all(alloc)?;
    for i in 0..forms.len() {
        if is_none(&out) {
            return Ok(out);
        }
        let here = fit(alloc, context, &forms[i], &trees[i])?;
        out = both(alloc, out, here)?;
    }
    Ok(out)
}

/// Returns the environments in which the i-th child of a pattern's list takes the run, which must be one member, with the comma
/// before it.
#[cycle(fit)]
fn fit_member(
    alloc: Global,
    context: &PatternContext<'_>,
    forms: &[Tree],
    i: usize,
    form: &Tree,
    run: &[ListMember],
) -> Result<EnvSet, NoMemory>
    requires within { i < length forms.now }
    requires child { form.now ≡ slice_index_or forms.now i form.now }
    ensures meaning { IfOk result (λ r. (env : Environment) → set_denotes r env
        ≡ (comma_fits context.now.decls.now context.now.tokens.now env (comma_before forms.now i) run.now
        && single_fits (fits_tree context.now.decls.now context.now.tokens.now context.now.types.now env form.now) run.now)) }
    ensures vars { IfOk result (λ r. (t : Var → Bool)
        → list_all (form_vars context.now.decls.now context.now.tokens.now t) forms.now ≡ true →
        form_vars context.now.decls.now context.now.tokens.now t form.now ≡ true → set_vars t r ≡ true) }
{
    match run {
        [member] => {
            let before = fit_comma_before(alloc, context, forms, i, run)?;
            if is_none(&before) {
                return Ok(before);
            }
            let here = fit(alloc, context, form, member.tree())?;
            both(alloc, before, here)
        }
        _ => Ok(EnvSet::none(alloc)),
    }
}

/// Adds the environments in which the child takes the member before those that the entry has taken.
#[cycle(fit)]
fn put_single(
    alloc: Global,
    context: &PatternContext<'_>,
    out: &mut Vec<RowEntry>,
    label: Label,
    forms: &[Tree],
    i: usize,
    form: &Tree,
    members: &[ListMember],
    entry: RowEntry,
) -> Result<(), NoMemory>
    requires within { i < length forms.now }
    requires child { form.now ≡ slice_index_or forms.now i form.now }
    ensures meaning { IfOk result (λ _. (n : ℕ) (env : Environment) → row_at out.new.items n env
        ≡ (row_at out.old.items n env || single_entry context.now.decls.now context.now.tokens.now context.now.types.now label
        (comma_before forms.now i) form.now members.now n env entry)) }
    ensures vars { IfOk result (λ _. (t : Var → Bool)
        → list_all (form_vars context.now.decls.now context.now.tokens.now t) forms.now ≡ true →
        form_vars context.now.decls.now context.now.tokens.now t form.now ≡ true → set_vars t entry.set ≡ true
        → row_vars t out.old.items ≡ true →
        row_vars t out.new.items ≡ true) }
{
    let RowEntry { taken, set } = entry;
    if taken == 0 {
        return Ok(());
    }
    if members.len() < taken {
        return Ok(());
    }
    let from = taken - 1;
    let here = fit_member(alloc, context, forms, i, form, &members[from..taken])?;
    let all = both(alloc, here, set)?;
    push_entry(out, from, all)
}

/// Returns the row from a child that takes one member.
#[cycle(fit)]
fn fit_single_row(
    alloc: Global,
    context: &PatternContext<'_>,
    label: Label,
    forms: &[Tree],
    i: usize,
    form: &Tree,
    members: &[ListMember],
    row: Vec<RowEntry>,
) -> Result<Vec<RowEntry>, NoMemory>
    requires within { i < length forms.now }
    requires child { form.now ≡ slice_index_or forms.now i form.now }
    requires single { is_wild label (leaf_of (out-Tree form.now)) ≡ false }
    ensures meaning { IfOk result (λ r. IsStep context.now.decls.now context.now.tokens.now context.now.types.now label
        (comma_before forms.now i) form.now members.now row.items r.items) }
    ensures vars { IfOk result (λ r. (t : Var → Bool)
        → list_all (form_vars context.now.decls.now context.now.tokens.now t) forms.now ≡ true →
        form_vars context.now.decls.now context.now.tokens.now t form.now ≡ true → row_vars t row.items ≡ true
        → row_vars t r.items ≡ true) }
{
    let mut out = Vec::new(alloc);
    for entry in row {
        put_single(
            alloc, context, &mut out, label, forms, i, form, members, entry,
        )?;
    }
    Ok(out)
}

/// Returns the row from the i-th child, given the row of the children that follow it.
#[cycle(fit)]
fn fit_child(
    alloc: Global,
    context: &PatternContext<'_>,
    label: Label,
    forms: &[Tree],
    i: usize,
    members: &[ListMember],
    row: Vec<RowEntry>,
) -> Result<Vec<RowEntry>, NoMemory>
    requires within { i < length forms.now }
    requires row { IsRow context.now.decls.now context.now.tokens.now context.now.types.now label
        (comma_before forms.now (suc i)) (drop
        (suc i) forms.now)
        members.now row.items }
    ensures meaning { IfOk result (λ r. IsRow context.now.decls.now context.now.tokens.now context.now.types.now label
        (comma_before forms.now i) (drop i forms.now)
        members.now r.items) }
    ensures vars { IfOk result (λ r. (t : Var → Bool)
        → list_all (form_vars context.now.decls.now context.now.tokens.now t) forms.now ≡ true →
        row_vars t row.items ≡ true → row_vars t r.items ≡ true) }
{
    let form = &forms[i];
    match comma(form) {
        Some(_) => {
            if is_bare_before(context.tokens, forms, i) {
                Ok(row)
            } else {
                Ok(Vec::new(alloc))
            }
        }
        None => {
            if is_wild(label, form) {
                let child = ListChild {
                    label,
                    forms,
                    i,
                    form,
                };
                fit_wild_row(alloc, context, &child, members, row.as_slice())
            } else {
                fit_single_row(alloc, context, label, forms, i, form, members, row)
            }
        }
    }
}

/// Returns the row from a child, computed from the last child back to it.
#[cycle(fit)]
pub fn fit_rows(
    alloc: Global,
    context: &PatternContext<'_>,
    label: Label,
    forms: &[Tree],
    start: usize,
    members: &[ListMember],
) -> Result<Vec<RowEntry>, NoMemory>
    requires within { start ≤ length forms.now }
    ensures meaning { IfOk result (λ r. IsRow context.now.decls.now context.now.tokens.now context.now.types.now label
        (comma_before forms.now start)
        (drop start forms.now) members.now r.items) }
    ensures vars { IfOk result (λ r. (t : Var → Bool)
        → list_all (form_vars context.now.decls.now context.now.tokens.now t) forms.now ≡ true →
        row_vars t r.items ≡ true) }
{
    let bare = is_bare_before(context.tokens, forms, forms.len());
    let mut row = last_row(alloc, bare, members.len())?;
    let mut i = forms.len();
    while i > start {
        i -= 1;
        row = fit_child(alloc, context, label, forms, i, members, row)?;
    }
    Ok(row)
}

/// The result for the first children of a pattern's list: the environments in which they fit, and the number of members they
/// take.
#[derive(Drop)]
struct Front {
    set: EnvSet,
    taken: usize,
}

/// Returns the environments in which the children from the i-th, which takes any run, fit the members that are left.
#[cycle(fit)]
fn fit_rest(
    alloc: Global,
    context: &PatternContext<'_>,
    label: Label,
    forms: &[Tree],
    i: usize,
    members: &[ListMember],
    taken: usize,
) -> Result<EnvSet, NoMemory>
    requires within { i < length forms.now }
    requires left { taken ≤ length members.now }
    requires wild { first_is_wild label (drop i forms.now) ≡ true }
    ensures meaning { IfOk result (λ r. (env : Environment) → set_denotes r env
        ≡ fits_from context.now.decls.now context.now.tokens.now context.now.types.now label (comma_before forms.now i)
        (drop i forms.now)
        (drop taken members.now) env) }
    ensures vars { IfOk result (λ r. (t : Var → Bool)
        → list_all (form_vars context.now.decls.now context.now.tokens.now t) forms.now ≡ true →
        set_vars t r ≡ true) }
{
    let rest = &members[taken..];
    let row = fit_rows(alloc, context, label, forms, i + 1, rest)?;
    let child = ListChild {
        label,
        forms,
        i,
        form: &forms[i],
    };
    fit_some_run(alloc, context, &child, rest, 0, row.as_slice())
}

/// Returns what the i-th child, which takes one member, adds to the children before it.
#[cycle(fit)]
fn fit_next(
    alloc: Global,
    context: &PatternContext<'_>,
    label: Label,
    forms: &[Tree],
    i: usize,
    members: &[ListMember],
    taken: usize,
) -> Result<Front, NoMemory>
    requires within { i < length forms.now }
    requires left { taken ≤ length members.now }
    requires single { first_is_wild label (drop i forms.now) ≡ false }
    ensures left { IfOk result (λ r. r.taken ≤ length members.now) }
    ensures meaning { IfOk result (λ r. (env : Environment) →
        fits_from context.now.decls.now context.now.tokens.now context.now.types.now label (comma_before forms.now i)
        (drop i forms.now) (drop taken members.now) env
        ≡ (set_denotes r.set env && fits_from context.now.decls.now context.now.tokens.now context.now.types.now label
        (comma_before forms.now (suc i)) (drop (suc i) forms.now)
        (drop r.taken members.now) env)) }
    ensures vars { IfOk result (λ r. (t : Var → Bool)
        → list_all (form_vars context.now.decls.now context.now.tokens.now t) forms.now ≡ true →
        set_vars t r.set ≡ true) }
{
    let form = &forms[i];
    match comma(form) {
        Some(_) => {
            let set = all_or_none(alloc, is_bare_before(context.tokens, forms, i))?;
            Ok(Front { set, taken })
        }
        None => {
            if taken == members.len() {
                let set = EnvSet::none(alloc);
                return Ok(Front { set, taken });
            }
            let run = &members[taken..taken + 1];
            let set = fit_member(alloc, context, forms, i, form, run)?;
            Ok(Front {
                set,
                taken: taken + 1,
            })
        }
    }
}

/// Returns the environments in which a pattern's list fits. Each child before the first that takes any run takes one member.
#[cycle(fit)]
fn fit_members(
    alloc: Global,
    context: &PatternContext<'_>,
    label: Label,
    forms: &[Tree],
    members: &[ListMember],
) -> Result<EnvSet, NoMemory>
    ensures meaning { IfOk result (λ r. (env : Environment) → set_denotes r env
        ≡ fits_from context.now.decls.now context.now.tokens.now context.now.types.now label None forms.now members.now env) }
    ensures vars { IfOk result (λ r. (t : Var → Bool)
        → list_all (form_vars context.now.decls.now context.now.tokens.now t) forms.now ≡ true →
        set_vars t r ≡ true) }
{
    let mut out = EnvSet::all(alloc)?;
    let mut taken: usize = 0;
    for i in 0..forms.len() {
        if is_none(&out) {
            return Ok(out);
        }
        if is_wild_at(label, forms, i) {
            let rest = fit_rest(alloc, context, label, forms, i, members, taken)?;
            return both(alloc, out, rest);
        }
        let next = fit_next(alloc, context, label, forms, i, members, taken)?;
        taken = next.taken;
        out = both(alloc, out, next.set)?;
    }
    if taken == members.len() && is_bare_before(context.tokens, forms, forms.len()) {
        Ok(out)
    } else {
        Ok(EnvSet::none(alloc))
    }
}

/// Returns the environments in which a pattern's list fits these children. A list with too many members is rejected without
/// visiting them.
#[cycle(fit)]
fn fit_children(
    alloc: Global,
    context: &PatternContext<'_>,
    label: Label,
    forms: &[Tree],
    trees: &[Tree],
) -> Result<EnvSet, NoMemory>
    ensures meaning { IfOk result (λ r. (env : Environment) → set_denotes r env
        ≡ list_fits context.now.decls.now context.now.tokens.now env label
        (map (piece context.now.decls.now context.now.tokens.now context.now.types.now env) forms.now) trees.now) }
    ensures vars { IfOk result (λ r. (t : Var → Bool)
        → list_all (form_vars context.now.decls.now context.now.tokens.now t) forms.now ≡ true →
        set_vars t r ≡ true) }
{
    if is_too_long(label, forms, trees) {
        return Ok(EnvSet::none(alloc));
    }
    let members = list_members(alloc, trees)?;
    fit_members(alloc, context, label, forms, members.as_slice())
}

/// Returns the environments in which a list of arguments or parameters fits.
#[cycle(fit)]
fn fit_list(
    alloc: Global,
    context: &PatternContext<'_>,
    label: Label,
    forms: &[Tree],
    tree: &Tree,
) -> Result<EnvSet, NoMemory>
    ensures meaning { IfOk result (λ r. (env : Environment) → set_denotes r env
        ≡ kids_fit (list_fits context.now.decls.now context.now.tokens.now env label) label
        (map (piece context.now.decls.now context.now.tokens.now context.now.types.now env) forms.now) (out-Tree tree.now)) }
    ensures vars { IfOk result (λ r. (t : Var → Bool)
        → list_all (form_vars context.now.decls.now context.now.tokens.now t) forms.now ≡ true →
        set_vars t r ≡ true) }
{
    match tree {
        Tree::Leaf(_) => Ok(EnvSet::none(alloc)),
        Tree::Branch(other, trees) => {
            if label.number() != other.number() {
                return Ok(EnvSet::none(alloc));
            }
            fit_children(alloc, context, label, forms, trees.as_slice())
        }
    }
}
