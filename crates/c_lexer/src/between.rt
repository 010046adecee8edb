// Whether two texts run together.
ghost use Rattle.std.specs.Prelude.{◌≡◌, ◌⊎◌, ◌↔◌, IsTrue, Some, None, List, length, take, ◌++◌, [], ◌∷◌};
ghost use Rattle.c_lexer.specs.declared.state.State.TheVariants.{Start};
ghost use Rattle.c_lexer.specs.Kinds.{walk};
ghost use Rattle.c_lexer.specs.First.{IsFirst};
ghost use Rattle.c_lexer.specs.declared.state.Kind.{Kind};
ghost use Rattle.c_lexer.specs.Longest.{MayFollow};
ghost use Rattle.c_lexer.specs.Parts.{RunTogether};

use crate::state::State;
use crate::step::{kind_at, step};

/// Returns the state to which a text leads, if there is one.
fn walk(bytes: &[u8]) -> Option<State>
    ensures { result ≡ walk (Some Start) bytes.now }
{
    let mut state = State::Start;
    for b in bytes {
        match step(state, *b) {
            Some(next) => state = next,
            None => return None,
        }
    }
    Some(state)
}

/// Whether no non-empty prefix of the bytes completes a text of a kind.
fn never_accepts(start: State, bytes: &[u8]) -> bool
    ensures { IsTrue result ↔ MayFollow start bytes.now }
{
    let mut state = start;
    for b in bytes {
        match step(state, *b) {
            Some(next) => match kind_at(next) {
                Some(_) => return false,
                None => state = next,
            },
            None => return true,
        }
    }
    true
}

/// Whether the first text is not the first piece of both together.
fn is_longer(left: &[u8], right: &[u8]) -> bool
    ensures { IsTrue result ↔ ((k : Kind) → IsFirst k left.now right.now → ⊥) }
{
    match walk(left) {
        None => true,
        Some(state) => match kind_at(state) {
            None => true,
            Some(_) => !never_accepts(state, right),
        },
    }
}

/// Whether two texts run together if no space is between them: the left one is not the first piece
/// of both together, or it is `.` and the right one begins with `.`. Linear, and allocates nothing.
pub fn parts(left: &[u8], right: &[u8]) -> bool
    ensures { IsTrue result ↔ RunTogether left.now right.now }
{
    if left.len() == 1 && left[0] == b'.' && begins_with_dot(right) {
        return true;
    }
    is_longer(left, right)
}

fn begins_with_dot(text: &[u8]) -> bool
    ensures { IsTrue result ↔ (take 1 text.now ≡ 46 ∷ []) }
{
    text.len() > 0 && text[0] == b'.'
}
