// What becomes of one body.
ghost use Rattle.std.specs.Prelude.{◌≡◌, ◌++◌, List, fold, IfOk, Some};
ghost use Rattle.std.specs.Option.{option_copied, unwrap_or};
ghost use Rattle.edit_bodies.specs.Laid.{IsReading};
ghost use Rattle.edit_bodies.specs.Looks as spec;
ghost use Rattle.edit_bodies.specs.Looks.{Seen};
ghost use Rattle.edit_bodies.specs.Needs.{form_of, needs_braces};
ghost use Rattle.edit_bodies.specs.Rows.{RowToken};
ghost use Rattle.edit_bodies.specs.Scenes.{IsPlace, IsRow, SeesBody, SeesRow};
ghost use Rattle.edit_bodies.specs.Scenes.{in_code, leaves_of, lesser, statements_of, text_in};

use crate::braces::{Braces, Coming, Spot};
use crate::needs::{is_one_body, is_open_row};
use crate::next::is_else_next;
use crate::place::{Place, is_looked_at, is_torn, last_leaf, leaf_at, place_of, tokens_of};
use crate::rows::{Row, row_of};
use crate::scene::Scene;
use c_expr::{ParseFault, parse_stmts};
use c_terms::{Names, NoMemory, Token, Tree};
use edit_marks::Body;
use std::alloc::Global;

/// What becomes of bodies: the braces that come, and the least of the last tokens of those that are broken.
#[derive(Drop)]
pub struct SeenBodies {
    pub braces: Braces,
    pub broken: Option<u32>,
}

/// Returns what has become of bodies after one more, with these names. Those in it come before it.
pub fn see_body(
    alloc: Global,
    scene: &Scene<'_>,
    names: &Names,
    body: &Body,
    seen: SeenBodies,
) -> Result<SeenBodies, NoMemory>
    ensures { (old : Seen) → seen ≡ in_code old → IfOk result (SeesBody scene.now names.now body.now old) }
{
    let place = place_of(scene, body);
    if place.body.is_function {
        return see_function(alloc, scene, &place, seen);
    }
    if !is_looked_at(scene, &place) {
        return Ok(seen);
    }
    see_statement(alloc, scene, names, &place, seen)
}

/// Returns the row of a body.
fn own_row(
    alloc: Global,
    scene: &Scene<'_>,
    place: &Place<'_>,
    braces: &Braces,
) -> Result<Row, NoMemory>
    requires { IsPlace scene.now place.now }
    ensures { IfOk result (IsRow (spec.row_of
        (text_in scene.now) (leaves_of scene.now) (statements_of scene.now) place.now.body.now braces.now)) }
{
    let tokens = tokens_of(scene, place.range);
    row_of(alloc, scene, braces, place.lead, tokens, place.behind)
}

/// Reads the row of a body of a statement, and adds the braces that it needs. The row has those of the bodies in it, which are
/// read so once more.
fn see_statement(
    alloc: Global,
    scene: &Scene<'_>,
    names: &Names,
    place: &Place<'_>,
    seen: SeenBodies,
) -> Result<SeenBodies, NoMemory>
    requires { IsPlace scene.now place.now }
    ensures { (old : Seen) → seen ≡ in_code old → IfOk result (SeesRow scene.now names.now place.now.body.now old) }
{
    let row = own_row(alloc, scene, place, &seen.braces)?;
    let Some(tree) = read_row(alloc, names, &row.tokens)? else {
        return Ok(with_broken(seen, last_leaf(scene, place.range)));
    };
    if needs_braces(scene, place, &tree) {
        return with_pair(scene, place, &row, seen);
    }
    Ok(seen)
}

/// Whether the row of a body needs braces, given its tree: it isn't one that may be a body, or an `else` behind it would belong
/// to it.
fn needs_braces(scene: &Scene<'_>, place: &Place<'_>, tree: &Tree) -> bool
    requires { IsPlace scene.now place.now }
    ensures { result ≡ needs_braces (spec.is_first_else (spec.tokens_behind
        (text_in scene.now) (leaves_of scene.now) (statements_of scene.now) place.now.body.now)) (form_of tree.now) }
{
    !is_one_body(tree) || (is_open_row(tree) && is_else_next(scene, place))
}

/// Returns the list of statements that tokens are read as, if they are one.
fn read_row(alloc: Global, names: &Names, tokens: &[Token]) -> Result<Option<Tree>, NoMemory>
    ensures { IfOk result (IsReading names.now tokens.now) }
{
    match parse_stmts(alloc, tokens, names, 0, tokens.len()) {
        Ok(tree) => Ok(Some(tree)),
        Err(ParseFault::NoTree) => Ok(None),
        Err(ParseFault::TooDeep) => Ok(None),
        Err(ParseFault::NoMemory) => Err(NoMemory),
    }
}

/// Returns what has become of bodies where one more is broken, whose last token this is.
fn with_broken(seen: SeenBodies, last: Option<u32>) -> SeenBodies
    ensures braces { result.braces ≡ seen.braces }
    ensures broken { result.broken ≡ fold lesser seen.broken (spec.some_token last) }
{
    let SeenBodies { braces, broken } = seen;
    let broken = match last {
        Some(last) => Some(lesser(broken, last)),
        None => broken,
    };
    SeenBodies { braces, broken }
}

fn lesser(broken: Option<u32>, token: u32) -> u32
    ensures { Some result ≡ lesser broken token }
{
    match broken {
        Some(other) => other.min(token),
        None => token,
    }
}

/// Returns what has become of bodies with the braces of one more: the first directly behind the token before it, and the other
/// behind its row.
fn with_pair(
    scene: &Scene<'_>,
    place: &Place<'_>,
    row: &Row,
    seen: SeenBodies,
) -> Result<SeenBodies, NoMemory>
    ensures { (all : List RowToken) → IsRow all row.now → IfOk result (λ more. more ≡ record seen {
      braces = seen.braces ++ spec.pair_for (text_in scene.now) (leaves_of scene.now) (statements_of scene.now)
          place.now.body.now place.now.lead all;
    }) }
{
    let (Some(lead), Some(owner)) = (place.lead, leaf_at(scene, place.body.owner)) else {
        return Ok(seen);
    };
    let start = Spot {
        token: lead,
        after: true,
        inserts: 0,
    };
    let SeenBodies { braces, broken } = seen;
    let braces = braces.with(Coming {
        spot: start,
        opens: true,
        owner,
    })?;
    let braces = braces.with(Coming {
        spot: end_of(start, row.end),
        opens: false,
        owner,
    })?;
    Ok(SeenBodies { braces, broken })
}

fn end_of(start: Spot, end: Option<Spot>) -> Spot
    ensures { result ≡ unwrap_or end start }
{
    match end {
        Some(end) => end,
        None => start,
    }
}

/// Looks at a function's own block: it is broken if a brace of it goes while something of the item before it stays, unless
/// what stands in its place begins and ends with a brace or is `;`.
fn see_function(
    alloc: Global,
    scene: &Scene<'_>,
    place: &Place<'_>,
    seen: SeenBodies,
) -> Result<SeenBodies, NoMemory>
    requires { IsPlace scene.now place.now }
    ensures { (old : Seen) → seen ≡ in_code old → IfOk result (λ new. new ≡ in_code (spec.seen_function
        (text_in scene.now) (leaves_of scene.now) (statements_of scene.now) place.now.body.now old)) }
{
    if !is_torn(scene, place) {
        return Ok(seen);
    }
    let row = own_row(alloc, scene, place, &seen.braces)?;
    if is_function_row(&row.tokens) {
        return Ok(seen);
    }
    Ok(with_broken(seen, last_leaf(scene, place.range)))
}

fn is_function_row(tokens: &[Token]) -> bool
    ensures { result ≡ spec.is_function_row tokens.now }
{
    let last = tokens.len().saturating_sub(1);
    (is_text(b"{", tokens.get(0)) && is_text(b"}", tokens.get(last)))
        || (tokens.len() == 1 && is_text(b";", tokens.get(0)))
}

fn is_text(text: &[u8], token: Option<&Token>) -> bool
    ensures { result ≡ spec.text_is text.now (option_copied token.entry) }
{
    match token {
        Some(token) => token.text.as_bytes() == text,
        None => false,
    }
}
