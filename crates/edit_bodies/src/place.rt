// What stands for a body, and whether the body is looked at.
ghost use Rattle.std.specs.Prelude.{◌≡◌, ◌-◌, ◌∷◌, ◌&&◌, ◌||◌, [], nat_eq, not, slice_get, slice_range, true};
ghost use Rattle.std.specs.List.{list_any};
ghost use Rattle.edit_bodies.specs.Looks as spec;
ghost use Rattle.edit_bodies.specs.Rows as rows;
ghost use Rattle.edit_bodies.specs.Scenes.{IsPlace, leaves_of, statements_of, text_in};

use crate::anchors::inserts_at;
use crate::scene::Scene;
use edit_marks::{Body, LeafRange};
use edit_unparse::Placed;

/// What stands for a body.
#[derive(Clone, Copy)]
pub struct Place<'a> {
    pub body: &'a Body,
    /// The token before it in its statement or function.
    pub lead: Option<u32>,
    /// The leaves that stand for it.
    pub range: LeafRange,
    /// The inserts behind its last token that are in its row, and those that are not.
    pub behind: &'a [Placed],
    pub left_out: &'a [Placed],
}

/// Returns what stands for a body.
pub fn place_of<'a>(scene: &Scene<'a>, body: &'a Body) -> Place<'a>
    ensures body { result.body.now ≡ body.now }
    ensures place { IsPlace scene.now result }
{
    let range = own_leaves(scene, body);
    let inserts = inserts_behind(scene, last_leaf(scene, range));
    let count = scene.counted(body, inserts);
    Place {
        body,
        lead: lead_of(scene, body),
        range,
        behind: &inserts[..count],
        left_out: &inserts[count..],
    }
}

/// Returns the inserts behind a token, if there is one.
fn inserts_behind<'a>(scene: &Scene<'a>, token: Option<u32>) -> &'a [Placed]
    ensures { result.now ≡ spec.inserts_behind (text_in scene.now) token }
{
    match token {
        Some(token) => scene.plan.at(token, true),
        None => &[],
    }
}

/// Returns the token of a leaf, if there is one.
pub fn leaf_at(scene: &Scene<'_>, leaf: usize) -> Option<u32>
    ensures { result ≡ slice_get (leaves_of scene.now) leaf }
{
    scene.edits.outline.leaves.get(leaf).copied()
}

/// Returns the token of the last of some leaves.
pub fn last_leaf(scene: &Scene<'_>, range: LeafRange) -> Option<u32>
    ensures { result ≡ slice_get (leaves_of scene.now) (range.to - 1) }
{
    leaf_at(scene, range.to.saturating_sub(1))
}

/// Returns the token before a body in its statement or function.
fn lead_of(scene: &Scene<'_>, body: &Body) -> Option<u32>
    ensures { result ≡ spec.lead_of (text_in scene.now) (leaves_of scene.now) (statements_of scene.now) body.now }
{
    if body.owner < body.leaves.from {
        leaf_at(scene, body.leaves.from - 1)
    } else {
        None
    }
}

/// Returns the leaves that stand for a body: its own, or those of both bodies of an `if` whose `else` goes while a token of the
/// second stays, or an edit inserts at the `else` or there. If the `else` goes, looks through the second body for that.
fn own_leaves(scene: &Scene<'_>, body: &Body) -> LeafRange
    ensures { result ≡ spec.own_leaves (text_in scene.now) (leaves_of scene.now) (statements_of scene.now) body.now }
{
    if body.is_function {
        return body.leaves;
    }
    match body.second_end {
        None => body.leaves,
        Some(end) => joined_until(scene, body.leaves, end),
    }
}

fn joined_until(scene: &Scene<'_>, own: LeafRange, end: usize) -> LeafRange
    ensures { result ≡ rows.joined_until (text_in scene.now) (leaves_of scene.now) own end }
{
    if goes_at(scene, leaf_at(scene, own.to)) && some_stays_or_comes(scene, own.to, end) {
        LeafRange {
            from: own.from,
            to: end,
        }
    } else {
        own
    }
}

/// Returns the tokens of leaves.
pub fn tokens_of<'a>(scene: &Scene<'a>, range: LeafRange) -> &'a [u32]
    ensures { result.now ≡ slice_range (leaves_of scene.now) range.from range.to }
{
    let leaves = scene.edits.outline.leaves.as_slice();
    let to = range.to.min(leaves.len());
    if range.from >= to {
        return &[];
    }
    &leaves[range.from..to]
}

/// Whether one of the tokens of these leaves stays, or an edit inserts at one. Takes log n steps for n inserts for each of them
/// up to that one.
fn some_stays_or_comes(scene: &Scene<'_>, from: usize, to: usize) -> bool
    ensures { result ≡ list_any (rows.stays_or_comes (text_in scene.now)) (slice_range (leaves_of scene.now) from to) }
{
    let range = LeafRange { from, to };
    tokens_of(scene, range)
        .iter()
        .any(|token| stays_or_comes(scene, *token))
}

fn stays_or_comes(scene: &Scene<'_>, token: u32) -> bool
    ensures { result ≡ rows.stays_or_comes (text_in scene.now) token }
{
    !scene.plan.goes(token as usize) || inserts_at(&scene.edits.list, token)
}

fn has_inserts(scene: &Scene<'_>, token: u32, after: bool) -> bool
    ensures { result ≡ rows.has_inserts (text_in scene.now) token after }
{
    scene.plan.at(token, after).len() > 0
}

pub fn goes_at(scene: &Scene<'_>, token: Option<u32>) -> bool
    ensures { result ≡ rows.goes_at (text_in scene.now) token }
{
    match token {
        Some(token) => scene.plan.goes(token as usize),
        None => false,
    }
}

fn comes_at(scene: &Scene<'_>, after: bool, token: Option<u32>) -> bool
    ensures { result ≡ rows.comes_at (text_in scene.now) after token }
{
    match token {
        Some(token) => has_inserts(scene, token, after),
        None => false,
    }
}

/// Whether a body of a statement is looked at: it has tokens, the token before it stays, and a token of its row goes or comes,
/// where it is no block or the block is opened up. Takes log n steps for n inserts for each token of the row up to the first
/// that goes or comes, but for blocks that aren't opened up.
pub fn is_looked_at(scene: &Scene<'_>, place: &Place<'_>) -> bool
    requires { IsPlace scene.now place.now }
    ensures { result ≡ spec.is_looked_at
        (text_in scene.now) (leaves_of scene.now) (statements_of scene.now) place.now.body.now }
{
    place.body.leaves.from < place.body.leaves.to
        && stays_at(scene, place.lead)
        && (!is_whole_block(place) || opens_up(scene, place))
        && is_changed(scene, place)
}

fn stays_at(scene: &Scene<'_>, token: Option<u32>) -> bool
    ensures { result ≡ spec.has_lead_that_stays
        (text_in scene.now) (leaves_of scene.now) (statements_of scene.now) token }
{
    match token {
        Some(token) => !scene.plan.goes(token as usize),
        None => false,
    }
}

/// Whether a body is a block, and no second body is joined to it.
fn is_whole_block(place: &Place<'_>) -> bool
    ensures { result ≡ (place.now.body.now.is_block && nat_eq place.now.range.to place.now.body.now.leaves.to) }
{
    place.body.is_block && place.range.to == place.body.leaves.to
}

/// Whether a token goes or comes in the row of a body.
fn is_changed(scene: &Scene<'_>, place: &Place<'_>) -> bool
    ensures { result ≡ (rows.comes_at (text_in scene.now) true place.now.lead || rows.changes_in (text_in scene.now)
        place.now.behind.now (slice_range (leaves_of scene.now) place.now.range.from place.now.range.to)) }
{
    comes_at(scene, true, place.lead)
        || changes_in(scene, place.behind, tokens_of(scene, place.range))
}

/// Whether one of these tokens goes, or something comes at them, where of the inserts behind the last these are counted.
fn changes_in(scene: &Scene<'_>, behind: &[Placed], tokens: &[u32]) -> bool
    ensures { result ≡ rows.changes_in (text_in scene.now) behind.now tokens.now }
{
    let count = tokens.len();
    if count == 0 {
        return false;
    }
    some_changes(scene, &tokens[..count - 1]) || last_changes(scene, behind, tokens[count - 1])
}

fn some_changes(scene: &Scene<'_>, tokens: &[u32]) -> bool
    ensures { result ≡ list_any (rows.is_changed (text_in scene.now)) tokens.now }
{
    tokens.iter().any(|token| changes(scene, *token))
}

fn changes(scene: &Scene<'_>, token: u32) -> bool
    ensures { result ≡ rows.is_changed (text_in scene.now) token }
{
    scene.plan.goes(token as usize)
        || has_inserts(scene, token, false)
        || has_inserts(scene, token, true)
}

fn last_changes(scene: &Scene<'_>, behind: &[Placed], token: u32) -> bool
    ensures { result ≡ rows.changes_in (text_in scene.now) behind.now (token ∷ []) }
{
    scene.plan.goes(token as usize) || has_inserts(scene, token, false) || behind.len() > 0
}

/// Whether a brace of a block goes, or something comes outside of its braces.
fn opens_up(scene: &Scene<'_>, place: &Place<'_>) -> bool
    requires { IsPlace scene.now place.now }
    ensures { result ≡ spec.opens_up
        (text_in scene.now) (leaves_of scene.now) (statements_of scene.now) place.now.body.now }
{
    let first = leaf_at(scene, place.body.leaves.from);
    goes_at(scene, first)
        || goes_at(scene, last_leaf(scene, place.range))
        || comes_at(scene, true, place.lead)
        || comes_at(scene, false, first)
        || place.behind.len() > 0
}

/// Whether a brace of a function's own block goes while a token of the function before it stays.
pub fn is_torn(scene: &Scene<'_>, place: &Place<'_>) -> bool
    requires { IsPlace scene.now place.now }
    ensures { result ≡ spec.is_torn
        (text_in scene.now) (leaves_of scene.now) (statements_of scene.now) place.now.body.now }
{
    let own = place.body.leaves;
    own.from < own.to
        && (goes_at(scene, leaf_at(scene, own.from))
            || goes_at(scene, last_leaf(scene, place.range)))
        && some_stays(scene, place.body.owner, own.from)
}

/// Whether one of the tokens of these leaves stays.
fn some_stays(scene: &Scene<'_>, from: usize, to: usize) -> bool
    ensures { result ≡ list_any (λ n. not ((text_in scene.now).goes n)) (slice_range (leaves_of scene.now) from to) }
{
    let range = LeafRange { from, to };
    tokens_of(scene, range)
        .iter()
        .any(|token| !scene.plan.goes(*token as usize))
}
