// The tokens in `when` clauses.
ghost use Rattle.std.specs.Prelude.{◌≡◌, IfOk};
ghost use Rattle.smpl_plus.specs.Outside as spec;

use c_terms::{NoMemory, TokenKind};
use smpl_meta::{Placed, is_differs, is_host, is_word};
use sqlite_items::Items;
use std::alloc::Global;

/// Where the next token is.
#[derive(Clone, Copy, Debug, PartialEq, Eq)]
pub enum Where {
    /// No clause may begin.
    Free,
    /// Directly after dots, the end of a nest or a clause.
    After,
    /// After `when` in the line with this number.
    When(u32),
    /// After `when !=` in the line with this number.
    Code(u32),
}

/// Whether a token is outside clauses, and where the next one is.
#[derive(Clone, Copy, Debug, PartialEq, Eq)]
pub struct Standing {
    pub outside: bool,
    pub next: Where,
}

fn outside(p: &Placed) -> Standing
    ensures { result ≡ spec.outside p.now }
{
    let next = if is_host(p) {
        Where::After
    } else {
        Where::Free
    };
    Standing {
        outside: true,
        next,
    }
}

fn within(next: Where) -> Standing
    ensures { result ≡ spec.within next }
{
    Standing {
        outside: false,
        next,
    }
}

fn after(p: &Placed) -> Standing
    ensures { result ≡ spec.after p.now }
{
    if is_word(p, b"when") {
        within(Where::When(p.line))
    } else {
        outside(p)
    }
}

fn behind_when(line: u32, p: &Placed) -> Standing
    ensures { result ≡ spec.behind_when line p.now }
{
    if p.line != line {
        after(p)
    } else if is_word(p, b"any") || is_word(p, b"strict") {
        within(Where::After)
    } else if is_differs(p) {
        within(Where::Code(line))
    } else {
        after(p)
    }
}

fn in_code(line: u32, p: &Placed) -> Standing
    ensures { result ≡ spec.in_code line p.now }
{
    if p.line == line {
        within(Where::Code(line))
    } else {
        after(p)
    }
}

fn stand(place: Where, p: &Placed) -> Standing
    ensures { result ≡ spec.stand place p.now }
{
    match place {
        Where::Free => outside(p),
        Where::After => after(p),
        Where::When(line) => behind_when(line, p),
        Where::Code(line) => in_code(line, p),
    }
}

/// Whether the token is one of C or a metavariable.
fn is_code(kind: TokenKind) -> bool
    ensures { result ≡ spec.is_code kind }
{
    !matches!(kind, TokenKind::Dots | TokenKind::Pat | TokenKind::Stray)
}

/// Returns for each token whether plus code may be anchored at it: it is one of C or a metavariable, outside clauses. Linear.
pub fn may_anchor(alloc: Global, tokens: &[Placed]) -> Result<Items<bool>, NoMemory>
    ensures { IfOk result (λ may. may ≡ spec.may_anchor tokens.now) }
{
    let mut may = Items::new(alloc);
    let mut place = Where::Free;
    for p in tokens {
        let Standing { outside, next } = stand(place, p);
        may.push(outside && is_code(p.token.kind))?;
        place = next;
    }
    Ok(may)
}
