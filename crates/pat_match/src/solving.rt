// The environments under which a pattern matches at a node.
ghost use Rattle.std.specs.Prelude.{◌≡◌, ◌<◌, Bool, true, ◌&&◌, IfOk, length, slice_index_or};
ghost use Rattle.std.specs.List.{list_any};
ghost use Rattle.smpl_terms.specs.declared.var.Var.{Var};
ghost use Rattle.smpl_terms.specs.Environments.{Environment};
ghost use Rattle.env_sets.specs.Sets.{set_denotes, set_vars};
ghost use Rattle.pat_match.specs.Vars.{form_vars, pattern_vars};
ghost use Rattle.pat_match.specs.Spots as at;
ghost use Rattle.pat_match.specs.Matching as spec;

use crate::context::{PatternContext, PatternForm};
use crate::inside::fit_inside;
use crate::role::{NodeRole, may_fit, role_of};
use crate::sets::{is_none, put_set, union};
use crate::spots::fit_at;
use c_terms::{NoMemory, Tree};
use cfg_build::{NodeKind, NodeLabel};
use env_sets::EnvSet;
use smpl_patch::{Pattern, Spot};
use std::alloc::Global;

/// Returns the environments in which a form of this spot fits some subtree of the node.
fn fit_seats(
    alloc: Global,
    context: &PatternContext<'_>,
    spot: Spot,
    kind: NodeKind,
    form: &Tree,
    tree: &Tree,
) -> Result<EnvSet, NoMemory>
    ensures meaning { IfOk result (λ r. (env : Environment) → set_denotes r env
        ≡ list_any (λ s. at.fits_at context.now.decls.now context.now.tokens.now context.now.types.now env spot kind form.now
        s.tree)
        (at.seats spot kind tree.now)) }
    ensures vars { IfOk result (λ r. (t : Var → Bool) → form_vars context.now.decls.now context.now.tokens.now t form.now
        ≡ true →
        set_vars t r ≡ true) }
{
    match spot {
        Spot::Inside => fit_inside(alloc, context, kind, form, tree),
        Spot::Whole => fit_at(alloc, context, Spot::Whole, kind, form, tree),
        Spot::Tail => fit_at(alloc, context, Spot::Tail, kind, form, tree),
    }
}

/// Returns the environments in which the form has the first form's sure variables, may be at a node of this role, and fits
/// some subtree of the node.
pub fn solve_form(
    alloc: Global,
    form: &PatternForm<'_>,
    context: &PatternContext<'_>,
    role: NodeRole,
    tree: &Tree,
) -> Result<EnvSet, NoMemory>
    requires within { form.now.number < length form.now.pattern.now.forms }
    requires form { form.now.tree.now ≡ slice_index_or form.now.pattern.now.forms form.now.number form.now.tree.now }
    ensures meaning { IfOk result (λ r. (env : Environment) → set_denotes r env ≡ list_any
        (λ s. spec.fits_seat context.now.decls.now context.now.tokens.now context.now.types.now env form.now.pattern.now role
        form.now.tree.now
        s.tree) (at.seats form.now.pattern.now.spot role.kind tree.now)) }
    ensures vars { IfOk result (λ r. (t : Var → Bool)
        → form_vars context.now.decls.now context.now.tokens.now t form.now.tree.now
        ≡ true →
        set_vars t r ≡ true) }
{
    let set = fit_seats(
        alloc,
        context,
        form.pattern.spot,
        role.kind,
        form.tree,
        tree,
    )?;
    if is_none(&set) {
        return Ok(set);
    }
    if may_fit(context, form, role) {
        Ok(set)
    } else {
        Ok(EnvSet::none(alloc))
    }
}

/// Returns the environments under which the pattern matches at the node.
///
/// A form is traversed in step with a subtree, up to a token that fits in no environment. So a node whose first token is a
/// different one costs a few steps per form, and for a pattern of spot Inside a few for each form and expression part. A list
/// of m members that has dots or list variables takes a row of at most n + 1 sets per member for the file's n members, and n
/// times n steps for each dots with a position or plus code in its middle. A list variable there copies its run for each number
/// of members that it may take. Each level costs a few recursive calls.
pub fn solve(
    alloc: Global,
    p: &Pattern,
    context: &PatternContext<'_>,
    node: &NodeLabel,
) -> Result<EnvSet, NoMemory>
    ensures meaning { IfOk result (λ r. (env : Environment) → set_denotes r env
        ≡ spec.matches context.now.decls.now context.now.tokens.now context.now.types.now env p.now node.now) }
    ensures vars { IfOk result (λ r. (t : Var → Bool) → pattern_vars context.now.decls.now context.now.tokens.now t p.now
        ≡ true →
        set_vars t r ≡ true) }
{
    let tree = node.tree.as_tree();
    let role = role_of(node);
    let mut entries = Vec::new(alloc);
    let forms = p.forms.as_slice();
    for i in 0..forms.len() {
        let form = PatternForm {
            pattern: p,
            number: i,
            tree: &forms[i],
        };
        let here = solve_form(alloc, &form, context, role, tree)?;
        put_set(&mut entries, here)?;
    }
    union(alloc, entries)
}
