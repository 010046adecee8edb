// How many brackets are open.
ghost use Rattle.std.specs.Prelude.{◌≡◌, ◌≤◌, ◌+◌};
ghost use Rattle.c_rows.specs.Limits.{most_open};
ghost use Rattle.c_rows.specs.Depth.{step};

use crate::words::is;
use c_terms::Token;

/// The most brackets that may be open at once.
pub const MOST_OPEN: usize = 200;

/// Returns how many brackets are open after a token, given how many are open before it. A closing bracket closes the last
/// one, of whatever kind. Takes constant time and no memory.
pub fn depth_after(token: &Token, depth: usize) -> usize
    requires { depth ≤ most_open }
    ensures value { result ≡ step token.now depth }
    ensures one_more { result ≤ depth + 1 }
{
    let text = token.text.as_bytes();
    if is(text, b"(") || is(text, b"[") || is(text, b"{") {
        depth + 1
    } else if is(text, b")") || is(text, b"]") || is(text, b"}") {
        if depth == 0 { 0 } else { depth - 1 }
    } else {
        depth
    }
}
