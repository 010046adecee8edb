// The environments under which a pattern with many forms matches at a node, computed with looks.
ghost use Rattle.std.specs.Prelude.{◌≡◌, ◌≤◌, ◌||◌, ℕ, Bool, true, false, Some, drop, length, IfOk};
ghost use Rattle.std.specs.List.{list_any};
ghost use Rattle.smpl_terms.specs.declared.var.Var.{Var};
ghost use Rattle.smpl_terms.specs.Environments.{Environment};
ghost use Rattle.env_sets.specs.Sets.{set_denotes, set_vars};
ghost use Rattle.pat_match.specs.Vars.{pattern_vars};
ghost use Rattle.pat_match.specs.Matching.{matches};
ghost use Rattle.ctl_fixpoint.specs.RequiredWords.Words.{has_word};
ghost use Rattle.ctl_fixpoint.specs.RequiredWords.FormGroups as spec;

use crate::required_words::form_groups::FormGroup;
use crate::required_words::word::is_word;
use c_terms::{NoMemory, Text, Tree};
use cfg_build::NodeLabel;
use env_sets::{Entry, EnvSet};
use pat_match::parts::{NodeRole, put_set, role_of, solve_form, union};
use pat_match::{PatternContext, PatternForm, solve};
use smpl_patch::Pattern;
use std::alloc::Global;

/// The number of parts of a node's tree that a look visits at most for each form that it may spare: less than trying these
/// forms takes.
const PARTS_A_FORM: usize = 32;

/// Returns how many parts are left of the budget if none of the tree's tokens is the word. Returns none if one is, or if the
/// tree has more parts than that. Recurses once per level.
fn lacking(word: &[u8], tree: &Tree, left: usize) -> Option<usize>
    ensures { (n : ℕ) → result ≡ Some n → has_word word.now tree.now ≡ false }
{
    if left == 0 {
        return None;
    }
    match tree {
        Tree::Leaf(token) => {
            if is_word(word, token) {
                None
            } else {
                Some(left - 1)
            }
        }
        Tree::Branch(_, children) => {
            let mut rest = left - 1;
            for child in children.as_slice() {
                match lacking(word, child, rest) {
                    Some(fewer) => {
                        rest = fewer;
                    }
                    None => {
                        return None;
                    }
                }
            }
            Some(rest)
        }
    }
}

/// Whether there is a word and the tree is known to lack it. Visits at most `most` parts, and returns true only if the tree
/// lacks the word.
fn is_absent(word: &Option<Text>, most: usize, tree: &Tree) -> bool
    ensures { result ≡ true → spec.is_absent word.now tree.now ≡ true }
{
    match word {
        Some(text) => lacking(text.as_bytes(), tree, most).is_some(),
        None => false,
    }
}

/// A pattern, and the node that it is matched at: its role and tree.
#[derive(Clone, Copy)]
struct Target<'p> {
    p: &'p Pattern,
    context: &'p PatternContext<'p>,
    role: NodeRole,
    tree: &'p Tree,
}

/// Adds the environments of the forms from number `first` up to the end.
fn put_forms(
    alloc: Global,
    entries: &mut Vec<Entry>,
    target: &Target<'_>,
    first: usize,
    end: usize,
) -> Result<(), NoMemory>
    requires in_order { first ≤ end }
    requires within { end ≤ length target.now.p.now.forms }
    ensures meaning { IfOk result (λ _. (env : Environment) →
        (set_denotes entries.new.items env
        || list_any (spec.fits_some target.now.context.now.decls.now target.now.context.now.tokens.now
        target.now.context.now.types.now env target.now.p.now target.now.role target.now.tree.now)
        (drop end target.now.p.now.forms))
        ≡ (set_denotes entries.old.items env
        || list_any (spec.fits_some target.now.context.now.decls.now target.now.context.now.tokens.now
        target.now.context.now.types.now env target.now.p.now target.now.role target.now.tree.now)
        (drop first target.now.p.now.forms))) }
    ensures vars { IfOk result (λ _. (t : Var → Bool)
        → pattern_vars target.now.context.now.decls.now target.now.context.now.tokens.now t target.now.p.now ≡ true
        → set_vars t entries.old.items ≡ true → set_vars t entries.new.items ≡ true) }
{
    let forms = target.p.forms.as_slice();
    for i in first..end {
        let form = PatternForm {
            pattern: target.p,
            number: i,
            tree: &forms[i],
        };
        let here = solve_form(alloc, &form, target.context, target.role, target.tree)?;
        put_set(entries, here)?;
    }
    Ok(())
}

/// Adds the environments of a run of forms, unless the tree is known to lack the run's word.
fn put_run(
    alloc: Global,
    entries: &mut Vec<Entry>,
    target: &Target<'_>,
    first: usize,
    form_group: &FormGroup,
) -> Result<(), NoMemory>
    requires in_order { first ≤ form_group.now.end }
    requires within { form_group.now.end ≤ length target.now.p.now.forms }
    requires run { spec.IsRun target.now.p.now.spot target.now.p.now.forms form_group.now.word first form_group.now.end }
    ensures meaning { IfOk result (λ _. (env : Environment) →
        (set_denotes entries.new.items env
        || list_any (spec.fits_some target.now.context.now.decls.now target.now.context.now.tokens.now
        target.now.context.now.types.now env target.now.p.now target.now.role target.now.tree.now)
        (drop form_group.now.end target.now.p.now.forms))
        ≡ (set_denotes entries.old.items env
        || list_any (spec.fits_some target.now.context.now.decls.now target.now.context.now.tokens.now
        target.now.context.now.types.now env target.now.p.now target.now.role target.now.tree.now)
        (drop first target.now.p.now.forms))) }
    ensures vars { IfOk result (λ _. (t : Var → Bool)
        → pattern_vars target.now.context.now.decls.now target.now.context.now.tokens.now t target.now.p.now ≡ true
        → set_vars t entries.old.items ≡ true → set_vars t entries.new.items ≡ true) }
{
    let most = (form_group.end - first).saturating_mul(PARTS_A_FORM);
    if is_absent(&form_group.word, most, target.tree) {
        return Ok(());
    }
    put_forms(alloc, entries, target, first, form_group.end)
}

/// Returns the environments of all forms at a node with this role and tree, run by run.
fn solve_runs(
    alloc: Global,
    form_groups: &[FormGroup],
    target: &Target<'_>,
) -> Result<EnvSet, NoMemory>
    requires { spec.Covers target.now.p.now.spot target.now.p.now.forms 0 form_groups.now (length target.now.p.now.forms) }
    ensures meaning { IfOk result (λ r. (env : Environment) → set_denotes r env
        ≡ list_any (spec.fits_some target.now.context.now.decls.now target.now.context.now.tokens.now
        target.now.context.now.types.now env target.now.p.now target.now.role target.now.tree.now) target.now.p.now.forms) }
    ensures vars { IfOk result (λ r. (t : Var → Bool)
        → pattern_vars target.now.context.now.decls.now target.now.context.now.tokens.now t target.now.p.now ≡ true
        → set_vars t r ≡ true) }
{
    let mut entries = Vec::new(alloc);
    let mut next = 0;
    for n in 0..form_groups.len() {
        put_run(alloc, &mut entries, target, next, &form_groups[n])?;
        next = form_groups[n].end;
    }
    union(alloc, entries)
}

/// Returns the environments under which the pattern matches at the node, as `solve` of pat_match does. The looks must be
/// those of the pattern; if there are none, all forms are tried.
///
/// A run's word is looked for in the node's tree, over at most 32 parts for each form of the run, and the run's forms are
/// skipped if the tree is known to lack the word. So if the tree has no word of the pattern, each run costs one step per
/// part in a small tree and no step per form; in a larger tree the forms are tried, as `solve` tries them all.
pub fn solve_by<'x>(
    alloc: Global,
    form_groups: &[FormGroup],
    p: &'x Pattern,
    context: &'x PatternContext<'x>,
    node: &'x NodeLabel,
) -> Result<EnvSet, NoMemory>
    requires { spec.AreFormGroups p.now form_groups.now }
    ensures meaning { IfOk result (λ r. (env : Environment) → set_denotes r env
        ≡ matches context.now.decls.now context.now.tokens.now context.now.types.now env p.now node.now) }
    ensures vars { IfOk result (λ r. (t : Var → Bool) → pattern_vars context.now.decls.now context.now.tokens.now t p.now
        ≡ true →
        set_vars t r ≡ true) }
{
    if form_groups.is_empty() {
        return solve(alloc, p, context, node);
    }
    let target = Target {
        p,
        context,
        role: role_of(node),
        tree: node.tree.as_tree(),
    };
    solve_runs(alloc, form_groups, &target)
}
