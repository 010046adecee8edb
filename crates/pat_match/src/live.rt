// Forms that have the sure variables of the first: an isomorphism never unbinds a variable.
ghost use Rattle.std.specs.Prelude.{◌≡◌, Bool, true, false, not, ◌&&◌, ◌||◌, ◌<◌, slice_get, slice_index_or, length};
ghost use Rattle.std.specs.List.{list_any, list_all};
ghost use Rattle.c_terms.specs.declared.tree.Tree.{out-Tree};
ghost use Rattle.c_terms.specs.Trees.{leaves};
ghost use Rattle.smpl_patch.specs.Patterns.{declared_as};
ghost use Rattle.pat_match.specs.Matching as spec;

use crate::context::{PatternContext, PatternForm};
use c_terms::{Token, TokenKind, Tree};
use smpl_patch::{Pattern, Spot, declared_as, is_held_sure};
use smpl_terms::Var;

/// Whether the variable is sure in this form if it is sure in the first.
fn keeps(context: &PatternContext<'_>, spot: Spot, first: &Tree, form: &Tree, x: &Var) -> bool
    ensures { result ≡ spec.keeps context.now.decls.now context.now.tokens.now spot first.now form.now x.now }
{
    !is_held_sure(context.decls, context.tokens, spot, x, first)
        || is_held_sure(context.decls, context.tokens, spot, x, form)
}

fn keeps_meta(
    context: &PatternContext<'_>,
    spot: Spot,
    first: &Tree,
    form: &Tree,
    token: &Token,
) -> bool
    ensures { result ≡ spec.meta_passes context.now.decls.now
        (spec.keeps context.now.decls.now context.now.tokens.now spot first.now form.now)
        token.now.kind token.now }
{
    match token.kind {
        TokenKind::Meta(_) => match declared_as(context.decls, token.text.as_bytes()) {
            None => true,
            Some(decl) => keeps(context, spot, first, form, &decl.var),
        },
        _ => true,
    }
}

fn keeps_all(
    context: &PatternContext<'_>,
    spot: Spot,
    first: &Tree,
    form: &Tree,
    vars: &[Var],
) -> bool
    ensures { result ≡ list_all (spec.keeps context.now.decls.now context.now.tokens.now spot first.now form.now) vars.now }
{
    vars.iter().all(|x| keeps(context, spot, first, form, x))
}

fn keeps_positions(
    context: &PatternContext<'_>,
    spot: Spot,
    first: &Tree,
    form: &Tree,
    id: u64,
) -> bool
    ensures { result ≡ spec.positions_pass (spec.keeps context.now.decls.now context.now.tokens.now spot first.now form.now)
        (slice_get context.now.tokens.now id) }
{
    match context.tokens.get(id as usize) {
        None => true,
        Some(entry) => keeps_all(context, spot, first, form, entry.positions.as_slice()),
    }
}

/// Whether the form keeps the variables of this part of the first form.
fn keeps_part(
    context: &PatternContext<'_>,
    spot: Spot,
    first: &Tree,
    form: &Tree,
    part: &Tree,
) -> bool
    ensures { result ≡ list_all (spec.token_passes context.now.decls.now context.now.tokens.now
        (spec.keeps context.now.decls.now context.now.tokens.now spot first.now form.now)) (leaves part.now) }
{
    match part {
        Tree::Leaf(token) => {
            keeps_meta(context, spot, first, form, token)
                && keeps_positions(context, spot, first, form, token.id)
        }
        Tree::Branch(_, children) => {
            for child in children.as_slice() {
                if !keeps_part(context, spot, first, form, child) {
                    return false;
                }
            }
            true
        }
    }
}

/// Whether the form has the sure variables of the pattern's first form. Takes no memory.
fn is_live(context: &PatternContext<'_>, p: &Pattern, form: &Tree) -> bool
    ensures { result ≡ spec.is_live_in context.now.decls.now context.now.tokens.now p.now form.now }
{
    match p.forms.as_slice() {
        [first, ..] => keeps_part(context, p.spot, first, form, first),
        [] => false,
    }
}

/// Whether the form has the sure variables of the pattern's first form. The first form has them, and is not examined.
/// Takes no memory.
pub fn is_live_at(context: &PatternContext<'_>, form: &PatternForm<'_>) -> bool
    requires within { form.now.number < length form.now.pattern.now.forms }
    requires form { form.now.tree.now ≡ slice_index_or form.now.pattern.now.forms form.now.number form.now.tree.now }
    ensures { result ≡ spec.is_live_in context.now.decls.now context.now.tokens.now form.now.pattern.now form.now.tree.now }
{
    if form.number == 0 {
        return true;
    }
    is_live(context, form.pattern, form.tree)
}
