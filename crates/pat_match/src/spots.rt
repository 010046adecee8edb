// Matching a form against a node: heads and tails by their own tokens, braces, statement variables, expression parts.
ghost use Rattle.std.specs.Prelude.{◌≡◌, Bool, true, false, not, ◌&&◌, ◌||◌, IfOk, map, length};
ghost use Rattle.std.specs.List.{list_all};
ghost use Rattle.c_terms.specs.declared.tree.Tree.{out-Tree};
ghost use Rattle.c_terms.specs.Shapes.{shape_of};
ghost use Rattle.smpl_terms.specs.Environments.{Environment};
ghost use Rattle.env_sets.specs.Sets.{set_denotes, set_vars};
ghost use Rattle.smpl_terms.specs.declared.var.Var.{Var};
ghost use Rattle.pat_match.specs.Vars.{form_vars};
ghost use Rattle.cfg_build.specs.CfgGraph.Own as own;
ghost use Rattle.pat_match.specs.Fitting.{piece, fits_tree, kids_fit};
ghost use Rattle.smpl_patch.specs.declared.pattern.Spot.TheVariants as spot;
ghost use Rattle.pat_match.specs.Spots as spec;

use crate::braces::{close_brace, is_close_brace, is_open_brace, open_brace};
use crate::context::PatternContext;
use crate::fit::fit;
use crate::sets::{both, is_none};
use c_terms::{Label, NoMemory, Shape, Token, Tree};
use cfg_build::{NodeKind, is_own};
use env_sets::EnvSet;
use smpl_patch::{Spot, is_statement_kind};
use std::alloc::Global;

fn is_statement_node(kind: NodeKind) -> bool
    ensures { result ≡ spec.is_statement_node kind }
{
    match kind {
        NodeKind::Simple => true,
        NodeKind::Head => true,
        NodeKind::OpenBrace => true,
        _ => false,
    }
}

fn is_simple_node(kind: NodeKind) -> bool
    ensures { result ≡ spec.is_simple_node kind }
{
    match kind {
        NodeKind::Simple => true,
        _ => false,
    }
}

fn is_tail_node(kind: NodeKind) -> bool
    ensures { result ≡ spec.is_tail_node kind }
{
    match kind {
        NodeKind::DoTail => true,
        _ => false,
    }
}

fn fit_open(
    alloc: Global,
    context: &PatternContext<'_>,
    kind: NodeKind,
    form: &Tree,
    tree: &Tree,
) -> Result<EnvSet, NoMemory>
    ensures meaning { IfOk result (λ r. (env : Environment) → set_denotes r env
        ≡ spec.option_fits (fits_tree context.now.decls.now context.now.tokens.now context.now.types.now env form.now)
        (spec.open_brace kind tree.now)) }
    ensures vars { IfOk result (λ r. (t : Var → Bool) → form_vars context.now.decls.now context.now.tokens.now t form.now
        ≡ true →
        set_vars t r ≡ true) }
{
    match open_brace(kind, tree) {
        None => Ok(EnvSet::none(alloc)),
        Some(brace) => fit(alloc, context, form, brace),
    }
}

fn fit_close(
    alloc: Global,
    context: &PatternContext<'_>,
    kind: NodeKind,
    form: &Tree,
    tree: &Tree,
) -> Result<EnvSet, NoMemory>
    ensures meaning { IfOk result (λ r. (env : Environment) → set_denotes r env
        ≡ spec.option_fits (fits_tree context.now.decls.now context.now.tokens.now context.now.types.now env form.now)
        (spec.close_brace kind tree.now)) }
    ensures vars { IfOk result (λ r. (t : Var → Bool) → form_vars context.now.decls.now context.now.tokens.now t form.now
        ≡ true →
        set_vars t r ≡ true) }
{
    match close_brace(kind, tree) {
        None => Ok(EnvSet::none(alloc)),
        Some(brace) => fit(alloc, context, form, brace),
    }
}

fn fit_where(
    alloc: Global,
    context: &PatternContext<'_>,
    here: bool,
    form: &Tree,
    tree: &Tree,
) -> Result<EnvSet, NoMemory>
    ensures meaning { IfOk result (λ r. (env : Environment) → set_denotes r env
        ≡ (here && fits_tree context.now.decls.now context.now.tokens.now context.now.types.now env form.now tree.now)) }
    ensures vars { IfOk result (λ r. (t : Var → Bool) → form_vars context.now.decls.now context.now.tokens.now t form.now
        ≡ true →
        set_vars t r ≡ true) }
{
    if here {
        fit(alloc, context, form, tree)
    } else {
        Ok(EnvSet::none(alloc))
    }
}

/// Returns the environments in which the form fits the tree, or all environments if the tree is not the node's own.
fn fit_own_child(
    alloc: Global,
    context: &PatternContext<'_>,
    own: bool,
    form: &Tree,
    tree: &Tree,
) -> Result<EnvSet, NoMemory>
    ensures meaning { IfOk result (λ r. (env : Environment) → set_denotes r env
        ≡ (not own || fits_tree context.now.decls.now context.now.tokens.now context.now.types.now env form.now tree.now)) }
    ensures vars { IfOk result (λ r. (t : Var → Bool) → form_vars context.now.decls.now context.now.tokens.now t form.now
        ≡ true →
        set_vars t r ≡ true) }
{
    if own {
        fit(alloc, context, form, tree)
    } else {
        EnvSet::all(alloc)
    }
}

/// Returns the environments in which the forms that are the node's own fit the trees.
fn fit_own_all(
    alloc: Global,
    context: &PatternContext<'_>,
    kind: NodeKind,
    label: Label,
    forms: &[Tree],
    trees: &[Tree],
) -> Result<EnvSet, NoMemory>
    ensures meaning { IfOk result (λ r. (env : Environment) → set_denotes r env
        ≡ spec.own_fit (own.is_own kind label (length forms.now)) 0
        (map (piece context.now.decls.now context.now.tokens.now context.now.types.now env) forms.now) trees.now) }
    ensures vars { IfOk result (λ r. (t : Var → Bool)
        → list_all (form_vars context.now.decls.now context.now.tokens.now t) forms.now ≡ true →
        set_vars t r ≡ true) }
{
    if forms.len() != trees.len() {
        return Ok(EnvSet::none(alloc));
    }
    let mut out = EnvSet::all(alloc)?;
    for i in 0..forms.len() {
        if is_none(&out) {
            return Ok(out);
        }
        let own = is_own(kind, label, forms.len(), i);
        let here = fit_own_child(alloc, context, own, &forms[i], &trees[i])?;
        out = both(alloc, out, here)?;
    }
    Ok(out)
}

fn fit_own_kids(
    alloc: Global,
    context: &PatternContext<'_>,
    kind: NodeKind,
    label: Label,
    forms: &[Tree],
    tree: &Tree,
) -> Result<EnvSet, NoMemory>
    ensures meaning { IfOk result (λ r. (env : Environment) → set_denotes r env
        ≡ kids_fit (spec.own_fit (own.is_own kind label (length forms.now)) 0) label
        (map (piece context.now.decls.now context.now.tokens.now context.now.types.now env) forms.now) (out-Tree tree.now)) }
    ensures vars { IfOk result (λ r. (t : Var → Bool)
        → list_all (form_vars context.now.decls.now context.now.tokens.now t) forms.now ≡ true →
        set_vars t r ≡ true) }
{
    match tree {
        Tree::Leaf(_) => Ok(EnvSet::none(alloc)),
        Tree::Branch(other, trees) => {
            if label.number() != other.number() {
                return Ok(EnvSet::none(alloc));
            }
            fit_own_all(alloc, context, kind, label, forms, trees.as_slice())
        }
    }
}

fn is_disjunction(label: Label) -> bool
    ensures { result ≡ spec.is_disjunction (shape_of label) }
{
    match label.shape() {
        Shape::Or => true,
        _ => false,
    }
}

/// Returns the environments in which the own tokens of a head or tail fit. A disjunction fits neither.
fn fit_own(
    alloc: Global,
    context: &PatternContext<'_>,
    kind: NodeKind,
    form: &Tree,
    tree: &Tree,
) -> Result<EnvSet, NoMemory>
    ensures meaning { IfOk result (λ r. (env : Environment) → set_denotes r env
        ≡ spec.own_fits context.now.decls.now context.now.tokens.now context.now.types.now env kind (out-Tree form.now)
        tree.now) }
    ensures vars { IfOk result (λ r. (t : Var → Bool) → form_vars context.now.decls.now context.now.tokens.now t form.now
        ≡ true →
        set_vars t r ≡ true) }
{
    match form {
        Tree::Leaf(_) => Ok(EnvSet::none(alloc)),
        Tree::Branch(label, forms) => {
            if is_disjunction(*label) {
                return Ok(EnvSet::none(alloc));
            }
            fit_own_kids(alloc, context, kind, *label, forms.as_slice(), tree)
        }
    }
}

fn fit_token_whole(
    alloc: Global,
    context: &PatternContext<'_>,
    kind: NodeKind,
    token: &Token,
    form: &Tree,
    tree: &Tree,
) -> Result<EnvSet, NoMemory>
    ensures meaning { IfOk result (λ r. (env : Environment) → set_denotes r env
        ≡ spec.token_whole context.now.decls.now context.now.tokens.now context.now.types.now env kind token.now form.now
        tree.now) }
    ensures vars { IfOk result (λ r. (t : Var → Bool) → form_vars context.now.decls.now context.now.tokens.now t form.now
        ≡ true →
        set_vars t r ≡ true) }
{
    if is_open_brace(token) {
        fit_open(alloc, context, kind, form, tree)
    } else if is_close_brace(token) {
        fit_close(alloc, context, kind, form, tree)
    } else if is_statement_kind(token.kind) {
        fit_where(alloc, context, is_statement_node(kind), form, tree)
    } else {
        fit_where(alloc, context, is_simple_node(kind), form, tree)
    }
}

fn fit_branch_whole(
    alloc: Global,
    context: &PatternContext<'_>,
    kind: NodeKind,
    form: &Tree,
    tree: &Tree,
) -> Result<EnvSet, NoMemory>
    ensures meaning { IfOk result (λ r. (env : Environment) → set_denotes r env
        ≡ spec.branch_whole context.now.decls.now context.now.tokens.now context.now.types.now env kind form.now tree.now) }
    ensures vars { IfOk result (λ r. (t : Var → Bool) → form_vars context.now.decls.now context.now.tokens.now t form.now
        ≡ true →
        set_vars t r ≡ true) }
{
    match kind {
        NodeKind::Simple => fit(alloc, context, form, tree),
        NodeKind::Head => fit_own(alloc, context, NodeKind::Head, form, tree),
        NodeKind::FunHead => fit_own(alloc, context, NodeKind::FunHead, form, tree),
        _ => Ok(EnvSet::none(alloc)),
    }
}

fn fit_whole(
    alloc: Global,
    context: &PatternContext<'_>,
    kind: NodeKind,
    form: &Tree,
    tree: &Tree,
) -> Result<EnvSet, NoMemory>
    ensures meaning { IfOk result (λ r. (env : Environment) → set_denotes r env
        ≡ spec.whole_at context.now.decls.now context.now.tokens.now context.now.types.now env kind (out-Tree form.now)
        form.now tree.now) }
    ensures vars { IfOk result (λ r. (t : Var → Bool) → form_vars context.now.decls.now context.now.tokens.now t form.now
        ≡ true →
        set_vars t r ≡ true) }
{
    match form {
        Tree::Leaf(token) => fit_token_whole(alloc, context, kind, token, form, tree),
        Tree::Branch(_, _) => fit_branch_whole(alloc, context, kind, form, tree),
    }
}

fn fit_tail(
    alloc: Global,
    context: &PatternContext<'_>,
    kind: NodeKind,
    form: &Tree,
    tree: &Tree,
) -> Result<EnvSet, NoMemory>
    ensures meaning { IfOk result (λ r. (env : Environment) → set_denotes r env
        ≡ spec.fits_at context.now.decls.now context.now.tokens.now context.now.types.now env spot.Tail kind form.now
        tree.now) }
    ensures vars { IfOk result (λ r. (t : Var → Bool) → form_vars context.now.decls.now context.now.tokens.now t form.now
        ≡ true →
        set_vars t r ≡ true) }
{
    if is_tail_node(kind) {
        fit_own(alloc, context, NodeKind::DoTail, form, tree)
    } else {
        Ok(EnvSet::none(alloc))
    }
}

/// Returns the environments in which a form of this spot fits the subtree at a node of this kind.
pub fn fit_at(
    alloc: Global,
    context: &PatternContext<'_>,
    spot: Spot,
    kind: NodeKind,
    form: &Tree,
    tree: &Tree,
) -> Result<EnvSet, NoMemory>
    ensures meaning { IfOk result (λ r. (env : Environment) → set_denotes r env
        ≡ spec.fits_at context.now.decls.now context.now.tokens.now context.now.types.now env spot kind form.now tree.now) }
    ensures vars { IfOk result (λ r. (t : Var → Bool) → form_vars context.now.decls.now context.now.tokens.now t form.now
        ≡ true →
        set_vars t r ≡ true) }
{
    match spot {
        Spot::Whole => fit_whole(alloc, context, kind, form, tree),
        Spot::Tail => fit_tail(alloc, context, kind, form, tree),
        Spot::Inside => fit(alloc, context, form, tree),
    }
}
