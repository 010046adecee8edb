// One token of a pattern: its metavariable, and the positions and plus code attached to it.
ghost use Rattle.std.specs.Prelude.{◌≡◌, Bool, true, false, not, ◌&&◌, IfOk, slice_get, Option, Some, None};
ghost use Rattle.std.specs.List.{list_all};
ghost use Rattle.smpl_terms.specs.declared.value.Value.TheVariants.{Term, Place};
ghost use Rattle.smpl_terms.specs.Values.{same};
ghost use Rattle.smpl_terms.specs.Environments.{Environment};
ghost use Rattle.smpl_terms.specs.declared.var.Var.{Var};
ghost use Rattle.env_sets.specs.Sets.{set_denotes, set_vars};
ghost use Rattle.smpl_patch.specs.Patterns.{declared_as};
ghost use Rattle.pat_match.specs.Matching.{var_passes, meta_passes};
ghost use Rattle.pat_match.specs.Vars.{stand_vars, place_vars, token_vars};
ghost use Rattle.pat_match.specs.Tokens as spec;

use crate::context::PatternContext;
use crate::kinds::{has_kind, is_excepted, is_same_leaf};
use crate::sets::{all_or_none, is_none};
use crate::wants::is_wanted;
use c_terms::{MetaKind, NoMemory, Token, TokenKind, Tree, first_leaf};
use env_sets::{Bound, EnvSet, Values, meet};
use smpl_patch::{PatToken, PlusBlock, VarDecl, declared_as};
use smpl_terms::{Value, Var, same_var};
use std::alloc::Global;

/// Returns the environments in which the variable is this tree.
pub fn is_tree(alloc: Global, var: &Var, tree: &Tree) -> Result<EnvSet, NoMemory>
    ensures meaning { IfOk result (λ r. (env : Environment) → set_denotes r env
        ≡ same (Term tree.now) (env var.now)) }
    ensures vars { IfOk result (λ r. (t : Var → Bool) → t var.now ≡ true → set_vars t r ≡ true) }
{
    EnvSet::one(
        alloc,
        var,
        Bound::Is(Value::term(alloc, tree.copy(alloc)?)?),
    )
}

/// Returns the environments in which the variable isn't this place.
fn not_at(alloc: Global, var: &Var, id: u64) -> Result<EnvSet, NoMemory>
    ensures meaning { IfOk result (λ r. (env : Environment) → set_denotes r env
        ≡ not (same (Place id) (env var.now))) }
    ensures vars { IfOk result (λ r. (t : Var → Bool) → t var.now ≡ true → set_vars t r ≡ true) }
{
    let mut places = Vec::new(alloc);
    places.push(Value::Place(id))?;
    let values = Values::of(alloc, places)?;
    EnvSet::one(alloc, var, Bound::Not(values))
}

/// Returns the environments of the set in which none of the variables is this place.
fn with_nots(alloc: Global, set: EnvSet, vars: &[Var], id: u64) -> Result<EnvSet, NoMemory>
    ensures meaning { IfOk result (λ r. (env : Environment) → set_denotes r env
        ≡ (set_denotes set env && list_all (λ y. not (same (Place id) (env y))) vars.now)) }
    ensures vars { IfOk result (λ r. (t : Var → Bool) → set_vars t set ≡ true
        → list_all t vars.now ≡ true →
        set_vars t r ≡ true) }
{
    let mut out = set;
    for y in vars {
        let other = not_at(alloc, y, id)?;
        out = meet(alloc, &out, &other)?;
    }
    Ok(out)
}

/// Returns the environments of the set in which none of the positions that `x` excepts is this place.
fn with_not_places(
    alloc: Global,
    set: EnvSet,
    decls: &[VarDecl],
    x: &Var,
    id: u64,
) -> Result<EnvSet, NoMemory>
    ensures meaning { IfOk result (λ r. (env : Environment) → set_denotes r env
        ≡ (set_denotes set env
        && list_all (λ y. not (same (Place id) (env y))) (spec.not_places decls.now x.now))) }
    ensures vars { IfOk result (λ r. (t : Var → Bool) → set_vars t set ≡ true →
        list_all t (spec.not_places decls.now x.now) ≡ true → set_vars t r ≡ true) }
{
    for decl in decls {
        if same_var(&decl.var, x) {
            return with_nots(alloc, set, decl.not_places.as_slice(), id);
        }
    }
    Ok(set)
}

/// Returns the environments of the set in which each of the positions is at the token with this id.
fn with_positions(
    alloc: Global,
    set: EnvSet,
    decls: &[VarDecl],
    positions: &[Var],
    id: u64,
) -> Result<EnvSet, NoMemory>
    ensures meaning { IfOk result (λ r. (env : Environment) → set_denotes r env
        ≡ (set_denotes set env && list_all (spec.is_place decls.now env id) positions.now)) }
    ensures vars { IfOk result (λ r. (t : Var → Bool) → set_vars t set ≡ true →
        list_all (place_vars decls.now t) positions.now ≡ true → set_vars t r ≡ true) }
{
    let mut out = set;
    for x in positions {
        let here = EnvSet::one(alloc, x, Bound::Is(Value::Place(id)))?;
        out = meet(alloc, &out, &here)?;
        out = with_not_places(alloc, out, decls, x, id)?;
    }
    Ok(out)
}

fn is_absent(block: &Option<PlusBlock>) -> bool
    ensures { result ≡ spec.is_absent block.now }
{
    match block {
        None => true,
        Some(_) => false,
    }
}

fn is_bare(entry: &PatToken) -> bool
    ensures { result ≡ spec.is_bare (Some entry.now) }
{
    entry.positions.len() == 0 && (is_absent(&entry.before) && is_absent(&entry.after))
}

/// Whether the token has neither a position nor plus code. Takes no memory.
pub fn is_bare_token(tokens: &[PatToken], id: u64) -> bool
    ensures { result ≡ spec.is_bare (slice_get tokens.now id) }
{
    match tokens.get(id as usize) {
        None => true,
        Some(entry) => is_bare(entry),
    }
}

/// Returns the set if a token with this entry may be aligned with nothing, and the empty set otherwise.
fn where_bare(alloc: Global, set: EnvSet, entry: &PatToken) -> EnvSet
    ensures meaning { (env : Environment) → set_denotes result env ≡ (set_denotes set env
        && spec.is_bare (Some entry.now)) }
    ensures vars { (t : Var → Bool) → set_vars t set ≡ true → set_vars t result ≡ true }
{
    if is_bare(entry) {
        set
    } else {
        EnvSet::none(alloc)
    }
}

/// Returns the environments of the set in which the token's positions and plus code are at the first of the tokens that it is
/// aligned with.
pub fn with_stand(
    alloc: Global,
    set: EnvSet,
    context: &PatternContext<'_>,
    token: &Token,
    first: Option<u64>,
) -> Result<EnvSet, NoMemory>
    ensures meaning { IfOk result (λ r. (env : Environment) → set_denotes r env
        ≡ (set_denotes set env && spec.stands context.now.decls.now context.now.tokens.now env token.now first)) }
    ensures vars { IfOk result (λ r. (t : Var → Bool) → set_vars t set ≡ true →
        stand_vars context.now.decls.now t (slice_get context.now.tokens.now token.now.id) ≡ true → set_vars t r ≡ true) }
{
    match context.tokens.get(token.id as usize) {
        None => Ok(set),
        Some(entry) => match first {
            None => Ok(where_bare(alloc, set, entry)),
            Some(id) => with_positions(alloc, set, context.decls, entry.positions.as_slice(), id),
        },
    }
}

/// Returns the id of the tree's first token. Takes no memory.
pub fn first_id(tree: &Tree) -> Option<u64>
    ensures { result ≡ spec.first_id tree.now }
{
    match first_leaf(tree) {
        Some(token) => Some(token.id),
        None => None,
    }
}

/// Returns the environments in which the metavariable fits the tree.
fn fit_meta(
    alloc: Global,
    context: &PatternContext<'_>,
    kind: MetaKind,
    name: &[u8],
    tree: &Tree,
) -> Result<EnvSet, NoMemory>
    ensures meaning { IfOk result (λ r. (env : Environment) → set_denotes r env
        ≡ spec.meta_fits context.now.decls.now env context.now.types.now kind (declared_as context.now.decls.now name.now)
        tree.now) }
    ensures vars { IfOk result (λ r. (t : Var → Bool)
        → var_passes t (declared_as context.now.decls.now name.now) ≡ true →
        set_vars t r ≡ true) }
{
    match declared_as(context.decls, name) {
        None => Ok(EnvSet::none(alloc)),
        Some(decl) => {
            if has_kind(kind, tree)
                && !is_excepted(decl, tree)
                && is_wanted(context.types, &decl.wanted, tree)
            {
                is_tree(alloc, &decl.var, tree)
            } else {
                Ok(EnvSet::none(alloc))
            }
        }
    }
}

/// Returns the environments in which the token fits the tree, apart from its positions and plus code.
fn fit_token(
    alloc: Global,
    context: &PatternContext<'_>,
    token: &Token,
    tree: &Tree,
) -> Result<EnvSet, NoMemory>
    ensures meaning { IfOk result (λ r. (env : Environment) → set_denotes r env
        ≡ spec.token_fits context.now.decls.now env context.now.types.now token.now.kind token.now tree.now) }
    ensures vars { IfOk result (λ r. (t : Var → Bool)
        → meta_passes context.now.decls.now t token.now.kind token.now ≡ true →
        set_vars t r ≡ true) }
{
    match token.kind {
        TokenKind::Meta(kind) => fit_meta(alloc, context, kind, token.text.as_bytes(), tree),
        TokenKind::Dots => Ok(EnvSet::none(alloc)),
        TokenKind::Pat => Ok(EnvSet::none(alloc)),
        _ => all_or_none(alloc, is_same_leaf(token, tree)),
    }
}

/// Returns the environments in which the token fits the tree.
pub fn fit_leaf(
    alloc: Global,
    context: &PatternContext<'_>,
    token: &Token,
    tree: &Tree,
) -> Result<EnvSet, NoMemory>
    ensures meaning { IfOk result (λ r. (env : Environment) → set_denotes r env
        ≡ spec.leaf_fits context.now.decls.now context.now.tokens.now env context.now.types.now token.now tree.now) }
    ensures vars { IfOk result (λ r. (t : Var → Bool)
        → token_vars context.now.decls.now context.now.tokens.now t token.now ≡ true →
        set_vars t r ≡ true) }
{
    let here = fit_token(alloc, context, token, tree)?;
    if is_none(&here) {
        return Ok(here);
    }
    let first = first_id(tree);
    with_stand(alloc, here, context, token, first)
}
