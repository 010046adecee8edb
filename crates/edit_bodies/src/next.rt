// The first token of the new text behind a body.
ghost use Rattle.std.specs.Prelude.{◌≡◌, codes, drop};
ghost use Rattle.std.specs.List.{flat_map};
ghost use Rattle.std.specs.Str.{bytes_eq};
ghost use Rattle.c_file.specs.Tokens.{token_at};
ghost use Rattle.edit_bodies.specs.Looks as spec;
ghost use Rattle.edit_bodies.specs.Scenes.{IsPlace, first_else, leaves_of, statements_of, text_in, words_at};

use crate::place::Place;
use crate::scene::Scene;
use c_lexer::Lexed;
use c_terms::Token;
use edit_unparse::Placed;

/// Whether the first token of the new text behind the row of a body is `else`. Takes log n steps for n inserts for each token
/// behind the row that goes before the first one that is left.
pub fn is_else_next(scene: &Scene<'_>, place: &Place<'_>) -> bool
    requires { IsPlace scene.now place.now }
    ensures { result ≡ spec.is_first_else (spec.tokens_behind
        (text_in scene.now) (leaves_of scene.now) (statements_of scene.now) place.now.body.now) }
{
    if let Some(first) = else_in_inserts(scene, place.left_out) {
        return first;
    }
    match else_in_tokens(scene, leaves_from(scene, place.range.to)) {
        Some(first) => first,
        None => false,
    }
}

/// Returns the tokens of the leaves from one on.
fn leaves_from<'a>(scene: &Scene<'a>, from: usize) -> &'a [u32]
    ensures { result.now ≡ drop from (leaves_of scene.now) }
{
    let leaves = scene.edits.outline.leaves.as_slice();
    if from > leaves.len() {
        return &[];
    }
    &leaves[from..]
}

/// Whether the first visible token of inserts is `else`, if they have one.
fn else_in_inserts(scene: &Scene<'_>, inserts: &[Placed]) -> Option<bool>
    ensures { result ≡ first_else (flat_map (words_at scene.now.inserts.items) inserts.now) }
{
    for placed in inserts {
        if let Some(first) = else_in(scene.tokens(placed)) {
            return Some(first);
        }
    }
    None
}

/// Whether the first of some tokens is `else`, if there is one.
fn else_in(tokens: &[Token]) -> Option<bool>
    ensures { result ≡ first_else tokens.now }
{
    match tokens.get(0) {
        Some(token) => Some(is_else(token.text.as_bytes())),
        None => None,
    }
}

/// Whether the first token of the new text at the places of some tokens is `else`, if they have one.
fn else_in_tokens(scene: &Scene<'_>, tokens: &[u32]) -> Option<bool>
    ensures { result ≡ first_else (flat_map (spec.tokens_there (text_in scene.now)) tokens.now) }
{
    for token in tokens {
        if let Some(first) = else_at(scene, *token) {
            return Some(first);
        }
    }
    None
}

/// Whether the first token of the new text at the place of a token is `else`, if it has one.
fn else_at(scene: &Scene<'_>, token: u32) -> Option<bool>
    ensures { result ≡ first_else (spec.tokens_there (text_in scene.now) token) }
{
    if let Some(first) = else_in_inserts(scene, scene.plan.at(token, false)) {
        return Some(first);
    }
    let piece = scene.plan.piece(token as usize);
    if !scene.plan.goes(token as usize) && !scene.fallen.has(piece) {
        return Some(is_else(text_at(scene.lexed, piece as usize)));
    }
    else_in_inserts(scene, scene.plan.at(token, true))
}

/// Returns the text of a piece, or none if there is no such piece.
fn text_at(lexed: &Lexed, number: usize) -> &[u8]
    ensures { result.now ≡ (token_at lexed.now number).text }
{
    if number >= lexed.count() {
        return &[];
    }
    let piece = lexed.piece(number);
    &lexed.bytes()[piece.start as usize..piece.end as usize]
}

fn is_else(text: &[u8]) -> bool
    ensures { result ≡ bytes_eq text.now (codes "else") }
{
    text == b"else".as_slice()
}
