// Splits the tokens of declarations into parts.
ghost use Rattle.std.specs.Prelude.{◌≡◌, ◌≤◌, ◌<◌, length, MatchOption, false};
ghost use Rattle.smpl_meta.specs.Forms as spec;
ghost use Rattle.smpl_meta.specs.Splits as split;

use smpl_lexer::{PatchToken, is_sign};

/// Returns the number of tokens in the first declaration, including its `;`.
pub fn part_length(tokens: &[PatchToken]) -> usize
    ensures value { result ≡ split.part_length tokens.now }
    ensures within { result ≤ length tokens.now }
    ensures some { 0 < length tokens.now → 0 < result }
{
    for i in 0..tokens.len() {
        if is_sign(&tokens[i], b";") {
            return i + 1;
        }
    }
    tokens.len()
}

/// Returns the number of tokens before the first comma outside braces.
pub fn chunk_length(tokens: &[PatchToken]) -> usize
    ensures value { result ≡ split.chunk_length false tokens.now }
    ensures within { result ≤ length tokens.now }
{
    let mut within = false;
    for i in 0..tokens.len() {
        let t = &tokens[i];
        if is_sign(t, b",") && !within {
            return i;
        }
        within = within_after(within, t);
    }
    tokens.len()
}

/// Whether the token after this one is within braces.
fn within_after(within: bool, t: &PatchToken) -> bool
    ensures { result ≡ spec.within_after within t.now }
{
    if is_sign(t, b"{") {
        true
    } else if is_sign(t, b"}") {
        false
    } else {
        within
    }
}

/// Returns the tokens before the last one, if the last one is this sign.
pub fn before_sign<'a>(text: &[u8], tokens: &'a [PatchToken]) -> Option<&'a [PatchToken]>
    ensures { MatchOption result (spec.before_sign text.now tokens.now ≡ None)
        (λ front. spec.before_sign text.now tokens.now ≡ Some front.now) }
{
    match tokens {
        [] => None,
        [front @ .., last] => {
            if is_sign(last, text) {
                Some(front)
            } else {
                None
            }
        }
    }
}
