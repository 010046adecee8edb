// The sure variables of patterns.
ghost use Rattle.std.specs.Prelude.{◌≡◌, ◌||◌, ◌&&◌, true, length, IfOk, OnOk};
ghost use Rattle.std.specs.List.{list_any, list_all};
ghost use Rattle.smpl_terms.specs.declared.var.Var.{Var as Variable};
ghost use Rattle.smpl_patch.specs.Held as parts;
ghost use Rattle.smpl_patch.specs.Held.{kept};
ghost use Rattle.smpl_patch.specs.Patterns as spec;
ghost use Rattle.pattern_vars.specs.Reads.{has, is_declared};
ghost use Rattle.pattern_vars.specs.Sure.{has_unless_all};

use crate::common::{met, put_set};
use crate::decls::declared_vars;
use crate::reads::put_own;
use crate::{Decls, VarSet};
use c_terms::{Label, NoMemory, Shape, Tree};
use smpl_patch::{PatToken, Pattern, Spot, is_held, is_sign_tree, is_split_into_nodes};
use std::alloc::Global;

/// Returns what the branches so far and one more have in common. `None` stands for all variables.
fn met_with(alloc: Global, common: Option<VarSet>, own: VarSet) -> Result<VarSet, NoMemory>
    ensures { IfOk result (λ both. (y : Variable) → has both y ≡ (has_unless_all common y && has own y)) }
{
    match common {
        None => Ok(own),
        Some(set) => met(alloc, &set, &own),
    }
}

/// Returns the same for a branch of a disjunction; a branch that is a sign changes nothing.
#[cycle(sure)]
fn common_with(
    alloc: Global,
    decls: &Decls,
    tokens: &[PatToken],
    branch: &Tree,
    common: Option<VarSet>,
) -> Result<Option<VarSet>, NoMemory>
    ensures { IfOk result (λ both. (y : Variable) → is_declared decls.now y ≡ true → has_unless_all both y
        ≡ (has_unless_all common y && (spec.is_sign_tree branch.now || spec.is_sure decls.now tokens.now y branch.now))) }
{
    if is_sign_tree(branch) {
        return Ok(common);
    }
    let mut own = VarSet::new(alloc);
    put_sure_in(alloc, decls, tokens, branch, &mut own)?;
    Ok(Some(met_with(alloc, common, own)?))
}

/// Returns the declared variables that all branches surely have, signs left aside.
#[cycle(sure)]
fn common_of(
    alloc: Global,
    decls: &Decls,
    tokens: &[PatToken],
    branches: &[Tree],
) -> Result<VarSet, NoMemory>
    ensures { IfOk result (λ common. (y : Variable) → is_declared decls.now y ≡ true → has common y
        ≡ list_all (λ t. spec.is_sign_tree t || spec.is_sure decls.now tokens.now y t) branches.now) }
{
    let mut common = None;
    for branch in branches {
        common = common_with(alloc, decls, tokens, branch, common)?;
    }
    match common {
        None => declared_vars(alloc, decls),
        Some(set) => Ok(set),
    }
}

/// Puts in the variables that all branches surely have.
#[cycle(sure)]
fn put_common(
    alloc: Global,
    decls: &Decls,
    tokens: &[PatToken],
    branches: &[Tree],
    set: &mut VarSet,
) -> Result<(), NoMemory>
    ensures { OnOk result ((y : Variable) → is_declared decls.now y ≡ true → has set.new y
        ≡ (has set.old y || list_all (λ t. spec.is_sign_tree t || spec.is_sure decls.now tokens.now y t) branches.now)) }
{
    let common = common_of(alloc, decls, tokens, branches)?;
    put_set(alloc, &common, set)
}

/// Puts in the variables that any of the trees surely has.
#[cycle(sure)]
fn put_each(
    alloc: Global,
    decls: &Decls,
    tokens: &[PatToken],
    trees: &[Tree],
    set: &mut VarSet,
) -> Result<(), NoMemory>
    ensures { OnOk result ((y : Variable) → is_declared decls.now y ≡ true → has set.new y
        ≡ (has set.old y || list_any (λ t. spec.is_sure decls.now tokens.now y t) trees.now)) }
{
    for tree in trees {
        put_sure_in(alloc, decls, tokens, tree, set)?;
    }
    Ok(())
}

/// Puts in the variables that the tree surely has.
#[cycle(sure)]
fn put_sure_in(
    alloc: Global,
    decls: &Decls,
    tokens: &[PatToken],
    tree: &Tree,
    set: &mut VarSet,
) -> Result<(), NoMemory>
    ensures { OnOk result ((y : Variable) → is_declared decls.now y ≡ true → has set.new y
        ≡ (has set.old y || spec.is_sure decls.now tokens.now y tree.now)) }
{
    match tree {
        Tree::Leaf(token) => put_own(alloc, decls, tokens, token, set),
        Tree::Branch(label, children) => match label.shape() {
            Shape::Or => put_common(alloc, decls, tokens, children.as_slice(), set),
            Shape::And => put_each(alloc, decls, tokens, children.as_slice(), set),
            Shape::List => put_each(alloc, decls, tokens, children.as_slice(), set),
            Shape::Plain => put_each(alloc, decls, tokens, children.as_slice(), set),
        },
    }
}

fn put_sure_where(
    alloc: Global,
    decls: &Decls,
    tokens: &[PatToken],
    here: bool,
    tree: &Tree,
    set: &mut VarSet,
) -> Result<(), NoMemory>
    ensures { OnOk result ((y : Variable) → is_declared decls.now y ≡ true → has set.new y
        ≡ (has set.old y || (here && spec.is_sure decls.now tokens.now y tree.now))) }
{
    if here {
        put_sure_in(alloc, decls, tokens, tree, set)?;
    }
    Ok(())
}

fn put_sure_kept(
    alloc: Global,
    decls: &Decls,
    tokens: &[PatToken],
    spot: Spot,
    label: Label,
    trees: &[Tree],
    set: &mut VarSet,
) -> Result<(), NoMemory>
    ensures { OnOk result ((y : Variable) → is_declared decls.now y ≡ true → has set.new y
        ≡ (has set.old y || list_any (spec.is_sure decls.now tokens.now y)
        (kept (parts.is_held spot label (length trees.now)) 0 trees.now))) }
{
    for i in 0..trees.len() {
        let here = is_held(spot, label, trees.len(), i);
        put_sure_where(alloc, decls, tokens, here, &trees[i], set)?;
    }
    Ok(())
}

/// Puts in the variables that the compared parts of a form surely have.
fn put_sure_held(
    alloc: Global,
    decls: &Decls,
    tokens: &[PatToken],
    spot: Spot,
    form: &Tree,
    set: &mut VarSet,
) -> Result<(), NoMemory>
    ensures { OnOk result ((y : Variable) → is_declared decls.now y ≡ true → has set.new y
        ≡ (has set.old y || spec.held_sure decls.now tokens.now spot y form.now)) }
{
    match form {
        Tree::Leaf(_) => put_sure_in(alloc, decls, tokens, form, set),
        Tree::Branch(label, children) => {
            if is_split_into_nodes(spot, *label) {
                put_sure_kept(alloc, decls, tokens, spot, *label, children.as_slice(), set)
            } else {
                put_sure_in(alloc, decls, tokens, form, set)
            }
        }
    }
}

/// Puts in the variables that the pattern surely has: those of its tokens, and of a disjunction, those that all its branches
/// have. For a disjunction without branches, these are all declared variables. Recurses once per level. Linear in the pattern
/// times the depth of its nested disjunctions, if no hashes collide.
pub fn put_sure(
    alloc: Global,
    decls: &Decls,
    tokens: &[PatToken],
    p: &Pattern,
    set: &mut VarSet,
) -> Result<(), NoMemory>
    ensures { OnOk result ((y : Variable) → is_declared decls.now y ≡ true → has set.new y
        ≡ (has set.old y || spec.sure decls.now tokens.now p.now y)) }
{
    match p.forms.as_slice() {
        [form, ..] => put_sure_held(alloc, decls, tokens, p.spot, form, set),
        [] => Ok(()),
    }
}
