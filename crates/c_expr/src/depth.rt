// How many brackets are open at once.
ghost use Rattle.std.specs.Prelude.{◌≡◌, ◌≤◌, ◌<◌, ◌↔◌, IsTrue};
ghost use Rattle.c_rows.specs.Limits.{most_open};
ghost use Rattle.c_rows.specs.Depth.{opens_of};

use c_rows::{MOST_OPEN, depth_after};
use c_terms::Token;

/// Whether more than 200 brackets are open at once.
pub fn is_too_deep(tokens: &[Token]) -> bool
    ensures { IsTrue result ↔ (most_open < opens_of tokens.now) }
{
    let mut depth = 0;
    for token in tokens {
        depth = depth_after(token, depth);
        if depth > MOST_OPEN {
            return true;
        }
    }
    false
}
