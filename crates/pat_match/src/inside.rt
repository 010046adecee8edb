// Matching a form against the expression parts among a node's own tokens.
ghost use Rattle.std.specs.Prelude.{◌≡◌, Bool, true, ◌&&◌, ◌||◌, IfOk, length};
ghost use Rattle.std.specs.List.{list_any};
ghost use Rattle.c_terms.specs.declared.tree.Tree.{out-Tree};
ghost use Rattle.smpl_terms.specs.declared.var.Var.{Var};
ghost use Rattle.smpl_terms.specs.Environments.{Environment};
ghost use Rattle.env_sets.specs.Sets.{set_denotes, set_vars};
ghost use Rattle.cfg_build.specs.CfgGraph.Own as own;
ghost use Rattle.pat_match.specs.Fitting.{fits_tree};
ghost use Rattle.pat_match.specs.Vars.{form_vars};
ghost use Rattle.pat_match.specs.Spots.{own_parts, own_parts_from, parts_of_child};

use crate::context::PatternContext;
use crate::fit::fit;
use crate::sets::{put_set, union};
use c_terms::{Label, NoMemory, Tree, is_expression_part};
use cfg_build::{NodeKind, is_own};
use env_sets::{Entry, EnvSet};
use std::alloc::Global;

/// Adds the environments in which the form fits the tree, if the tree is asked for.
fn put_part(
    alloc: Global,
    entries: &mut Vec<Entry>,
    context: &PatternContext<'_>,
    form: &Tree,
    asked: bool,
    tree: &Tree,
) -> Result<(), NoMemory>
    ensures meaning { IfOk result (λ _. (env : Environment) → set_denotes entries.new.items env
        ≡ (set_denotes entries.old.items env || (asked
        && fits_tree context.now.decls.now context.now.tokens.now context.now.types.now env form.now tree.now))) }
    ensures vars { IfOk result (λ _. (t : Var → Bool) → form_vars context.now.decls.now context.now.tokens.now t form.now
        ≡ true →
        set_vars t entries.old.items ≡ true → set_vars t entries.new.items ≡ true) }
{
    if !asked {
        return Ok(());
    }
    let here = fit(alloc, context, form, tree)?;
    put_set(entries, here)
}

/// Adds the environments in which the form fits child `i` of a branch, if this fills an expression part of the row, or a part
/// inside it. Recurses once per level of the child.
fn put_child(
    alloc: Global,
    entries: &mut Vec<Entry>,
    context: &PatternContext<'_>,
    form: &Tree,
    label: Label,
    i: usize,
    child: &Tree,
) -> Result<(), NoMemory>
    ensures meaning { IfOk result (λ _. (env : Environment) → set_denotes entries.new.items env
        ≡ (set_denotes entries.old.items env || list_any
        (λ s. fits_tree context.now.decls.now context.now.tokens.now context.now.types.now env form.now s.tree)
        (parts_of_child label i child.now))) }
    ensures vars { IfOk result (λ _. (t : Var → Bool) → form_vars context.now.decls.now context.now.tokens.now t form.now
        ≡ true →
        set_vars t entries.old.items ≡ true → set_vars t entries.new.items ≡ true) }
{
    let asked = is_expression_part(label, i, child);
    put_part(alloc, entries, context, form, asked, child)?;
    if let Tree::Branch(inner, children) = child {
        for (j, below) in children.as_slice().iter().enumerate() {
            put_child(alloc, entries, context, form, *inner, j, below)?;
        }
    }
    Ok(())
}

/// Like `put_child`, if the child is the node's own.
fn put_own(
    alloc: Global,
    entries: &mut Vec<Entry>,
    context: &PatternContext<'_>,
    form: &Tree,
    own: bool,
    label: Label,
    i: usize,
    child: &Tree,
) -> Result<(), NoMemory>
    ensures meaning { IfOk result (λ _. (env : Environment) → set_denotes entries.new.items env
        ≡ (set_denotes entries.old.items env || (own && list_any
        (λ s. fits_tree context.now.decls.now context.now.tokens.now context.now.types.now env form.now s.tree)
        (parts_of_child label i child.now)))) }
    ensures vars { IfOk result (λ _. (t : Var → Bool) → form_vars context.now.decls.now context.now.tokens.now t form.now
        ≡ true →
        set_vars t entries.old.items ≡ true → set_vars t entries.new.items ≡ true) }
{
    if own {
        put_child(alloc, entries, context, form, label, i, child)
    } else {
        Ok(())
    }
}

fn fit_own_parts(
    alloc: Global,
    context: &PatternContext<'_>,
    kind: NodeKind,
    form: &Tree,
    label: Label,
    children: &[Tree],
) -> Result<EnvSet, NoMemory>
    ensures meaning { IfOk result (λ r. (env : Environment) → set_denotes r env
        ≡ list_any (λ s. fits_tree context.now.decls.now context.now.tokens.now context.now.types.now env form.now s.tree)
        (own_parts_from (own.is_own kind label (length children.now)) label 0 children.now)) }
    ensures vars { IfOk result (λ r. (t : Var → Bool) → form_vars context.now.decls.now context.now.tokens.now t form.now
        ≡ true →
        set_vars t r ≡ true) }
{
    let mut entries = Vec::new(alloc);
    for i in 0..children.len() {
        let own = is_own(kind, label, children.len(), i);
        put_own(
            alloc,
            &mut entries,
            context,
            form,
            own,
            label,
            i,
            &children[i],
        )?;
    }
    union(alloc, entries)
}

/// Returns the environments in which the form fits an expression part among the node's own tokens. Linear in the number of
/// these tokens if it fits none.
pub fn fit_inside(
    alloc: Global,
    context: &PatternContext<'_>,
    kind: NodeKind,
    form: &Tree,
    tree: &Tree,
) -> Result<EnvSet, NoMemory>
    ensures meaning { IfOk result (λ r. (env : Environment) → set_denotes r env
        ≡ list_any (λ s. fits_tree context.now.decls.now context.now.tokens.now context.now.types.now env form.now s.tree)
        (own_parts kind (out-Tree tree.now))) }
    ensures vars { IfOk result (λ r. (t : Var → Bool) → form_vars context.now.decls.now context.now.tokens.now t form.now
        ≡ true →
        set_vars t r ≡ true) }
{
    match tree {
        Tree::Leaf(_) => Ok(EnvSet::none(alloc)),
        Tree::Branch(label, children) => {
            fit_own_parts(alloc, context, kind, form, *label, children.as_slice())
        }
    }
}
