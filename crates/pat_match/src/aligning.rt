// Where a pattern is aligned under one environment.
ghost use Rattle.std.specs.Prelude.{◌≡◌, ◌++◌, ◌<◌, ◌^◌, IfOk, OnOk, length, slice_index_or, [], ◌∷◌, if◌then◌else◌};
ghost use Rattle.smpl_terms.specs.Environments.{total};
ghost use Rattle.c_terms.specs.declared.tree.Tree.{out-Tree};
ghost use Rattle.cfg_build.specs.CfgGraph.Own as own;
ghost use Rattle.pat_match.specs.Spots as at;
ghost use Rattle.pat_match.specs.Matching as spec;

use crate::context::{PatternContext, PatternForm};
use crate::role::{NodeRole, may_fit, role_of};
use crate::spots::fit_at;
use c_terms::{Label, NoMemory, Tree, TreePath, is_expression_part};
use cfg_build::{NodeLabel, is_own};
use env_sets::denotes;
use smpl_patch::{Pattern, Spot};
use smpl_terms::Env;
use std::alloc::Global;

/// A subtree that matches, by its path from the item, and the number of the first form that fits it.
#[derive(Drop)]
pub struct Alignment {
    pub path: TreePath,
    pub form: u32,
}

/// A pattern that is aligned with subtrees of a node, of this role, under this environment.
#[derive(Clone, Copy)]
struct Aligner<'p> {
    p: &'p Pattern,
    context: &'p PatternContext<'p>,
    role: NodeRole,
    env: &'p Env,
}

/// Whether the form has the first form's sure variables, may be at a node of this role, and fits the subtree.
pub fn fits_seat(
    alloc: Global,
    form: &PatternForm<'_>,
    context: &PatternContext<'_>,
    role: NodeRole,
    tree: &Tree,
    env: &Env,
) -> Result<bool, NoMemory>
    requires within { form.now.number < length form.now.pattern.now.forms }
    requires form { form.now.tree.now ≡ slice_index_or form.now.pattern.now.forms form.now.number form.now.tree.now }
    ensures { IfOk result (λ r. r
        ≡ spec.fits_seat context.now.decls.now context.now.tokens.now context.now.types.now
        (total env.now) form.now.pattern.now role form.now.tree.now tree.now) }
{
    let set = fit_at(
        alloc,
        context,
        form.pattern.spot,
        role.kind,
        form.tree,
        tree,
    )?;
    let fits = denotes(&set, env);
    Ok(fits && may_fit(context, form, role))
}

/// Returns the number of the first form that fits the subtree.
fn form_at(alloc: Global, aligner: &Aligner<'_>, tree: &Tree) -> Result<Option<u32>, NoMemory>
    requires few { length aligner.now.p.now.forms < 2 ^ 32 }
    ensures { IfOk result (λ o. o
        ≡ spec.form_at aligner.now.context.now.decls.now aligner.now.context.now.tokens.now aligner.now.context.now.types.now
        (total aligner.now.env.now) aligner.now.p.now aligner.now.role tree.now) }
{
    let forms = aligner.p.forms.as_slice();
    for i in 0..forms.len() {
        let form = PatternForm {
            pattern: aligner.p,
            number: i,
            tree: &forms[i],
        };
        if fits_seat(
            alloc,
            &form,
            aligner.context,
            aligner.role,
            tree,
            aligner.env,
        )? {
            return Ok(Some(i as u32));
        }
    }
    Ok(None)
}

fn put_form(
    alloc: Global,
    found: &mut Vec<Alignment>,
    path: &[u32],
    form: Option<u32>,
) -> Result<(), NoMemory>
    ensures { IfOk result (λ _. found.new.items ≡ found.old.items ++ spec.put_form path.now form) }
{
    match form {
        None => Ok(()),
        Some(form) => {
            let path = TreePath::of(Vec::from_slice(alloc, path)?);
            found.push(Alignment { path, form })?;
            Ok(())
        }
    }
}

/// Adds the subtree at this path, if it is asked for and matches.
fn put_part(
    alloc: Global,
    found: &mut Vec<Alignment>,
    aligner: &Aligner<'_>,
    asked: bool,
    path: &[u32],
    tree: &Tree,
) -> Result<(), NoMemory>
    requires few { length aligner.now.p.now.forms < 2 ^ 32 }
    ensures { IfOk result (λ _. found.new.items ≡ found.old.items
        ++ (if asked then spec.put_form path.now (spec.form_at aligner.now.context.now.decls.now
        aligner.now.context.now.tokens.now aligner.now.context.now.types.now (total aligner.now.env.now) aligner.now.p.now
        aligner.now.role tree.now)
        else [])) }
{
    if !asked {
        return Ok(());
    }
    let form = form_at(alloc, aligner, tree)?;
    put_form(alloc, found, path, form)
}

/// Adds child `i` of the branch at the path `above`, if it fills an expression part of the row and matches, and the matching
/// parts inside it. Recurses once per level of the child.
fn put_child(
    alloc: Global,
    found: &mut Vec<Alignment>,
    above: &mut Vec<u32>,
    aligner: &Aligner<'_>,
    label: Label,
    i: usize,
    child: &Tree,
) -> Result<(), NoMemory>
    requires few { length aligner.now.p.now.forms < 2 ^ 32 }
    ensures found { OnOk result (found.new.items ≡ found.old.items
        ++ spec.aligned_at aligner.now.context.now.decls.now aligner.now.context.now.tokens.now
        aligner.now.context.now.types.now (total aligner.now.env.now)
        aligner.now.p.now aligner.now.role above.old.items (at.parts_of_child label i child.now)) }
    ensures above { OnOk result (above.new.items ≡ above.old.items) }
{
    if i >= 4294967296 {
        return Err(NoMemory);
    }
    above.push(i as u32)?;
    let asked = is_expression_part(label, i, child);
    put_part(alloc, found, aligner, asked, above.as_slice(), child)?;
    match child {
        Tree::Leaf(_) => {}
        Tree::Branch(inner, children) => {
            for (j, below) in children.as_slice().iter().enumerate() {
                put_child(alloc, found, above, aligner, *inner, j, below)?;
            }
        }
    }
    above.pop();
    Ok(())
}

/// Like `put_child`, if the child is the node's own.
fn put_own(
    alloc: Global,
    found: &mut Vec<Alignment>,
    above: &mut Vec<u32>,
    aligner: &Aligner<'_>,
    own: bool,
    label: Label,
    i: usize,
    child: &Tree,
) -> Result<(), NoMemory>
    requires few { length aligner.now.p.now.forms < 2 ^ 32 }
    ensures found { OnOk result (found.new.items ≡ found.old.items
        ++ spec.aligned_at aligner.now.context.now.decls.now aligner.now.context.now.tokens.now
        aligner.now.context.now.types.now (total aligner.now.env.now)
        aligner.now.p.now aligner.now.role above.old.items (if own then at.parts_of_child label i child.now else [])) }
    ensures above { OnOk result (above.new.items ≡ above.old.items) }
{
    if own {
        put_child(alloc, found, above, aligner, label, i, child)
    } else {
        Ok(())
    }
}

fn align_own_parts(
    alloc: Global,
    aligner: &Aligner<'_>,
    path: &[u32],
    label: Label,
    children: &[Tree],
) -> Result<Vec<Alignment>, NoMemory>
    requires few { length aligner.now.p.now.forms < 2 ^ 32 }
    ensures { IfOk result (λ r. r.items
        ≡ spec.aligned_at aligner.now.context.now.decls.now aligner.now.context.now.tokens.now aligner.now.context.now.types.now
        (total aligner.now.env.now) aligner.now.p.now aligner.now.role path.now
        (at.own_parts_from (own.is_own aligner.now.role.kind label (length children.now)) label 0 children.now)) }
{
    let mut found = Vec::new(alloc);
    let mut above = Vec::from_slice(alloc, path)?;
    for i in 0..children.len() {
        let own = is_own(aligner.role.kind, label, children.len(), i);
        put_own(
            alloc,
            &mut found,
            &mut above,
            aligner,
            own,
            label,
            i,
            &children[i],
        )?;
    }
    Ok(found)
}

fn align_inside(
    alloc: Global,
    aligner: &Aligner<'_>,
    path: &[u32],
    tree: &Tree,
) -> Result<Vec<Alignment>, NoMemory>
    requires few { length aligner.now.p.now.forms < 2 ^ 32 }
    ensures { IfOk result (λ r. r.items
        ≡ spec.aligned_at aligner.now.context.now.decls.now aligner.now.context.now.tokens.now aligner.now.context.now.types.now
        (total aligner.now.env.now) aligner.now.p.now aligner.now.role path.now
        (at.own_parts aligner.now.role.kind (out-Tree tree.now))) }
{
    match tree {
        Tree::Leaf(_) => Ok(Vec::new(alloc)),
        Tree::Branch(label, children) => {
            let children = children.as_slice();
            align_own_parts(alloc, aligner, path, *label, children)
        }
    }
}

fn align_whole(
    alloc: Global,
    aligner: &Aligner<'_>,
    path: &[u32],
    tree: &Tree,
) -> Result<Vec<Alignment>, NoMemory>
    requires few { length aligner.now.p.now.forms < 2 ^ 32 }
    ensures { IfOk result (λ r. r.items
        ≡ spec.put_form path.now (spec.form_at aligner.now.context.now.decls.now aligner.now.context.now.tokens.now
        aligner.now.context.now.types.now
        (total aligner.now.env.now) aligner.now.p.now aligner.now.role tree.now)) }
{
    let mut found = Vec::new(alloc);
    let form = form_at(alloc, aligner, tree)?;
    put_form(alloc, &mut found, path, form)?;
    Ok(found)
}

/// Returns the subtrees of the node that match under the environment, by place, each with its first form that matches. A
/// variable without a value counts as the place 0.
///
/// For each subtree it costs as much as `solve` does there, and a path for each that matches; it copies the path of the node
/// once. Each level costs a few recursive calls. A child number of 2^32 or more is refused as if out of memory.
pub fn align<'x>(
    alloc: Global,
    p: &'x Pattern,
    context: &'x PatternContext<'x>,
    node: &NodeLabel,
    env: &'x Env,
) -> Result<Vec<Alignment>, NoMemory>
    requires few { length p.now.forms < 2 ^ 32 }
    ensures exact { IfOk result (λ r. r.items
        ≡ spec.aligns context.now.decls.now context.now.tokens.now context.now.types.now (total env.now) p.now node.now) }
{
    let tree = node.tree.as_tree();
    let steps = node.path.steps(alloc)?;
    let path = steps.as_slice();
    let role = role_of(node);
    let aligner = Aligner {
        p,
        context,
        role,
        env,
    };
    match p.spot {
        Spot::Inside => align_inside(alloc, &aligner, path, tree),
        Spot::Whole => align_whole(alloc, &aligner, path, tree),
        Spot::Tail => align_whole(alloc, &aligner, path, tree),
    }
}
