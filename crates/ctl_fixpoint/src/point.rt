// Parts that are computed node by node.
ghost use Rattle.std.specs.Prelude.{◌≡◌, ℕ, ◌<◌, Bool, true, false, not, ◌&&◌, ◌||◌, List, [], length};
ghost use Rattle.std.specs.Prelude.{slice_index_or, slice_get, Some, IfOk, Contains};
ghost use Rattle.cfg_build.specs.CfgGraph.Flow.{IsSound, count_of, succ_of, past_of, down_of};
ghost use Rattle.smpl_terms.specs.declared.var.Var.{Var};
ghost use Rattle.smpl_terms.specs.Environments.{Environment};
ghost use Rattle.env_sets.specs.Sets.{set_denotes, set_vars};
ghost use Rattle.pat_match.specs.Vars.{pattern_vars};
ghost use Rattle.ctl_fixpoint.specs.RequiredWords.FormGroups.{AreFormGroups};
ghost use Rattle.ctl_formula.specs.Tables.{below};
ghost use Rattle.ctl_fixpoint.specs.CtlHolds.Holding.{at_node, atom_at, brace_at};
ghost use Rattle.ctl_fixpoint.specs.CtlHolds.Holding as spec;
ghost use Rattle.ctl_fixpoint.specs.CtlHolds.Rounds.{passes, passes_there};
ghost use Rattle.ctl_fixpoint.specs.Looked.{AreFormGroupsOf};
ghost use Rattle.ctl_fixpoint.specs.Steps.{row_of, has, row_vars, is_pointwise, step, step_vars, Gives};

use crate::required_words::{FormGroup, looks_of, solve_by};
use crate::rows::{every_next, row_at, set_at, set_there, some_next};
use c_terms::NoMemory;
use cfg_build::{Graph, NodeKind};
use ctl_formula::{Formula, Node};
use env_sets::{Bound, EnvSet, StateRow, complement, join, meet};
use pat_match::PatternContext;
use smpl_patch::Pattern;
use smpl_terms::{Value, Var};
use std::alloc::Global;

/// Returns the set of all environments if `holds`, and the empty set otherwise.
fn all_if(alloc: Global, holds: bool) -> Result<EnvSet, NoMemory>
    ensures gives { IfOk result (λ r. (env : Environment) → set_denotes r env ≡ holds) }
    ensures vars { IfOk result (λ r. (test : Var → Bool) → set_vars test r ≡ true) }
{
    if holds {
        EnvSet::all(alloc)
    } else {
        Ok(EnvSet::none(alloc))
    }
}

pub fn is_open(kind: NodeKind) -> bool
    ensures { result ≡ spec.is_open kind }
{
    matches!(kind, NodeKind::OpenBrace)
}

pub fn is_close(kind: NodeKind) -> bool
    ensures { result ≡ spec.is_close kind }
{
    matches!(kind, NodeKind::CloseBrace)
}

/// Returns all environments if a body that leaves the function begins at the node, and none otherwise.
fn bail_set(alloc: Global, g: &Graph, s: u32) -> Result<EnvSet, NoMemory>
    requires { s < count_of g.now }
    ensures gives { IfOk result (λ r. (env : Environment)
        → set_denotes r env ≡ at_node g.now s (λ l. l.bail)) }
    ensures vars { IfOk result (λ r. (test : Var → Bool) → set_vars test r ≡ true) }
{
    all_if(alloc, g.label(s).bail)
}

/// Returns the environments under which the pattern matches at the node.
fn atom_set(
    alloc: Global,
    g: &Graph,
    context: &PatternContext<'_>,
    p: &Pattern,
    form_groups: &[FormGroup],
    s: u32,
) -> Result<EnvSet, NoMemory>
    requires node { s < count_of g.now }
    requires types { context.now.types.now ≡ g.now.types }
    requires form_groups { AreFormGroups p.now form_groups.now }
    ensures gives { IfOk result (λ r. (env : Environment) →
        set_denotes r env ≡ atom_at context.now.decls.now context.now.tokens.now g.now p.now s env) }
    ensures vars { IfOk result (λ r. (test : Var → Bool)
        → pattern_vars context.now.decls.now context.now.tokens.now test p.now ≡ true
        → set_vars test r ≡ true) }
{
    solve_by(alloc, form_groups, p, context, &g.label(s))
}

/// Returns the environments under which the pattern matches at the node and the variable is the place of its label's `{`.
fn placed_set(
    alloc: Global,
    g: &Graph,
    context: &PatternContext<'_>,
    p: &Pattern,
    form_groups: &[FormGroup],
    b: &Var,
    s: u32,
) -> Result<EnvSet, NoMemory>
    requires node { s < count_of g.now }
    requires types { context.now.types.now ≡ g.now.types }
    requires form_groups { AreFormGroups p.now form_groups.now }
    ensures gives { IfOk result (λ r. (env : Environment) → set_denotes r env
        ≡ brace_at context.now.decls.now context.now.tokens.now g.now (λ k. true) p.now b.now s env) }
    ensures vars { IfOk result (λ r. (test : Var → Bool)
        → (pattern_vars context.now.decls.now context.now.tokens.now test p.now && test b.now) ≡ true
        → set_vars test r ≡ true) }
{
    let label = g.label(s);
    let place = EnvSet::one(alloc, b, Bound::Is(Value::Place(label.brace)))?;
    let matched = solve_by(alloc, form_groups, p, context, &label)?;
    meet(alloc, &place, &matched)
}

fn open_set(
    alloc: Global,
    g: &Graph,
    context: &PatternContext<'_>,
    p: &Pattern,
    form_groups: &[FormGroup],
    b: &Var,
    s: u32,
) -> Result<EnvSet, NoMemory>
    requires node { s < count_of g.now }
    requires types { context.now.types.now ≡ g.now.types }
    requires form_groups { AreFormGroups p.now form_groups.now }
    ensures gives { IfOk result (λ r. (env : Environment) → set_denotes r env
        ≡ brace_at context.now.decls.now context.now.tokens.now g.now spec.is_open p.now b.now s env) }
    ensures vars { IfOk result (λ r. (test : Var → Bool)
        → (pattern_vars context.now.decls.now context.now.tokens.now test p.now && test b.now) ≡ true
        → set_vars test r ≡ true) }
{
    if is_open(g.label(s).kind) {
        placed_set(alloc, g, context, p, form_groups, b, s)
    } else {
        Ok(EnvSet::none(alloc))
    }
}

fn close_set(
    alloc: Global,
    g: &Graph,
    context: &PatternContext<'_>,
    p: &Pattern,
    form_groups: &[FormGroup],
    b: &Var,
    s: u32,
) -> Result<EnvSet, NoMemory>
    requires node { s < count_of g.now }
    requires types { context.now.types.now ≡ g.now.types }
    requires form_groups { AreFormGroups p.now form_groups.now }
    ensures gives { IfOk result (λ r. (env : Environment) → set_denotes r env
        ≡ brace_at context.now.decls.now context.now.tokens.now g.now spec.is_close p.now b.now s env) }
    ensures vars { IfOk result (λ r. (test : Var → Bool)
        → (pattern_vars context.now.decls.now context.now.tokens.now test p.now && test b.now) ≡ true
        → set_vars test r ≡ true) }
{
    if is_close(g.label(s).kind) {
        placed_set(alloc, g, context, p, form_groups, b, s)
    } else {
        Ok(EnvSet::none(alloc))
    }
}

/// Returns the environments that are in the row's sets at all next nodes, or at some of them.
pub fn next_set(
    alloc: Global,
    g: &Graph,
    every: bool,
    x: &[EnvSet],
    s: u32,
) -> Result<EnvSet, NoMemory>
    requires sound { IsSound g.now }
    requires node { s < count_of g.now }
    requires wide { length x.now ≡ count_of g.now }
    ensures gives { IfOk result (λ r. (env : Environment) → set_denotes r env
        ≡ passes every (λ k. has x.now k env) (succ_of g.now s)) }
    ensures vars { IfOk result (λ r. (test : Var → Bool) → row_vars test x.now ≡ true
        → set_vars test r ≡ true) }
{
    if every {
        every_next(alloc, g.succ(s), x)
    } else {
        some_next(alloc, g.succ(s), x)
    }
}

/// Returns the row's set at the node past this node's statement.
fn past_set(alloc: Global, g: &Graph, x: &[EnvSet], s: u32) -> Result<EnvSet, NoMemory>
    requires sound { IsSound g.now }
    requires node { s < count_of g.now }
    requires wide { length x.now ≡ count_of g.now }
    ensures gives { IfOk result (λ r. (env : Environment) → set_denotes r env
        ≡ passes_there (λ k. has x.now k env) (past_of g.now s)) }
    ensures vars { IfOk result (λ r. (test : Var → Bool) → row_vars test x.now ≡ true
        → set_vars test r ≡ true) }
{
    set_there(alloc, g.past(s), x)
}

/// Returns the row's set at the first node of a body.
fn down_set(alloc: Global, g: &Graph, body: usize, x: &[EnvSet], s: u32) -> Result<EnvSet, NoMemory>
    requires sound { IsSound g.now }
    requires node { s < count_of g.now }
    requires wide { length x.now ≡ count_of g.now }
    ensures gives { IfOk result (λ r. (env : Environment) → set_denotes r env
        ≡ passes_there (λ k. has x.now k env) (slice_get (down_of g.now s) body)) }
    ensures vars { IfOk result (λ r. (test : Var → Bool) → row_vars test x.now ≡ true
        → set_vars test r ≡ true) }
{
    set_there(alloc, g.down(s, body), x)
}

/// Returns the set of a part at a node, given the rows of its parts. The part must be one that is computed node by node: no
/// until, no quantifier, and neither `Inside` nor `Outside`.
fn point_set(
    alloc: Global,
    g: &Graph,
    f: &Formula,
    node: &Node,
    form_groups: &[FormGroup],
    rows: &[StateRow],
    s: u32,
) -> Result<EnvSet, NoMemory>
    requires sound { IsSound g.now }
    requires node { s < count_of g.now }
    requires kids { below (length rows.now) node.now ≡ true }
    requires wide { (i : ℕ) → i < length rows.now → length (row_of rows.now i) ≡ count_of g.now }
    requires pointwise { is_pointwise node.now ≡ true }
    requires form_groups { AreFormGroupsOf node.now form_groups.now }
    ensures gives { IfOk result (λ r. (env : Environment) → set_denotes r env
        ≡ step f.now.decls f.now.tokens g.now (λ i k. has (row_of rows.now i) k env) node.now s env) }
    ensures vars { IfOk result (λ r. (test : Var → Bool)
        → step_vars f.now.decls f.now.tokens (λ t i. row_vars t (row_of rows.now i)) test node.now ≡ true
        → set_vars test r ≡ true) }
{
    let types = g.types();
    let context = PatternContext {
        decls: f.decls(),
        tokens: f.tokens(),
        types: &types,
    };
    match node {
        Node::True => EnvSet::all(alloc),
        Node::Atom(p) => atom_set(alloc, g, &context, p, form_groups, s),
        Node::EarlyExit => bail_set(alloc, g, s),
        Node::BraceOpen(p, b) => open_set(alloc, g, &context, p, form_groups, b, s),
        Node::BraceClose(p, b) => close_set(alloc, g, &context, p, form_groups, b, s),
        Node::Not(i) => complement(alloc, set_at(rows, *i, s)),
        Node::And(i, j) => meet(alloc, set_at(rows, *i, s), set_at(rows, *j, s)),
        Node::Or(i, j) => join(alloc, set_at(rows, *i, s), set_at(rows, *j, s)),
        Node::AX(i) => next_set(alloc, g, true, row_at(rows, *i), s),
        Node::EX(i) => next_set(alloc, g, false, row_at(rows, *i), s),
        Node::After(i) => past_set(alloc, g, row_at(rows, *i), s),
        Node::InBranch(body, i) => down_set(alloc, g, *body, row_at(rows, *i), s),
        Node::Inside(_) => unreachable!(),
        Node::Outside(_) => unreachable!(),
        Node::AU(_, _) => unreachable!(),
        Node::EU(_, _) => unreachable!(),
        Node::Exists(_, _) => unreachable!(),
    }
}

/// Returns the looks of the part's pattern, if it has one.
fn node_looks(alloc: Global, node: &Node) -> Result<Vec<FormGroup>, NoMemory>
    ensures { IfOk result (λ form_groups. AreFormGroupsOf node.now form_groups.items) }
{
    match node {
        Node::Atom(p) => looks_of(alloc, p),
        Node::BraceOpen(p, _) => looks_of(alloc, p),
        Node::BraceClose(p, _) => looks_of(alloc, p),
        _ => Ok(Vec::new(alloc)),
    }
}

/// Returns the row of a part that is computed node by node. If its pattern has many forms, its looks are made once for all
/// nodes.
pub fn point_row(
    alloc: Global,
    g: &Graph,
    f: &Formula,
    node: &Node,
    rows: &[StateRow],
) -> Result<Vec<EnvSet>, NoMemory>
    requires sound { IsSound g.now }
    requires kids { below (length rows.now) node.now ≡ true }
    requires wide { (i : ℕ) → i < length rows.now → length (row_of rows.now i) ≡ count_of g.now }
    requires pointwise { is_pointwise node.now ≡ true }
    ensures gives { IfOk result (λ r. Gives (count_of g.now) r.items
        (λ s env. step f.now.decls f.now.tokens g.now (λ i k. has (row_of rows.now i) k env) node.now s env)) }
    ensures vars { IfOk result (λ r. (test : Var → Bool)
        → step_vars f.now.decls f.now.tokens (λ t i. row_vars t (row_of rows.now i)) test node.now ≡ true
        → row_vars test r.items ≡ true) }
{
    let form_groups = node_looks(alloc, node)?;
    let mut sets = Vec::with_capacity(alloc, g.count() as usize)?;
    for s in 0..g.count() {
        sets.push(point_set(alloc, g, f, node, form_groups.as_slice(), rows, s)?)?;
    }
    Ok(sets)
}
