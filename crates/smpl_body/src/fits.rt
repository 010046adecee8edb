// Where positions and clauses are allowed.
ghost use Rattle.std.specs.Prelude.{◌≡◌, slice_get, IfOk};
ghost use Rattle.std.specs.Option.{option_copied};
ghost use Rattle.smpl_body.specs.Bodies as spec;

use crate::dots::{list_dots, statement_dots};
use crate::smpl_when::{Clauses, Cutting, WhenFlags};
use c_terms::{NoMemory, TokenKind, Tree};
use smpl_meta::Placed;
use sqlite_items::at;
use std::alloc::Global;

fn has_position(found: Option<&Placed>) -> bool
    ensures { result ≡ spec.has_position (option_copied found.entry) }
{
    match found {
        None => false,
        Some(p) => !p.positions.is_empty(),
    }
}

/// Whether no position follows any of the tokens with these numbers.
fn without_positions(placed: &[Placed], ids: &[u64]) -> bool
    ensures { result ≡ spec.without_positions placed.now ids.now }
{
    ids.iter().all(|id| !has_position(at(placed, *id as usize)))
}

pub(crate) fn is_pat(kind: TokenKind) -> bool
    ensures { result ≡ spec.is_pat kind }
{
    matches!(kind, TokenKind::Pat)
}

fn sign_fits(p: &Placed) -> bool
    ensures { result ≡ spec.sign_fits p.now }
{
    !(is_pat(p.token.kind) && has_position(Some(p)))
}

/// Whether no position follows a sign.
fn signs_fit(placed: &[Placed]) -> bool
    ensures { result ≡ spec.signs_fit placed.now }
{
    placed.iter().all(|p| sign_fits(p))
}

fn says_nothing(found: Option<&WhenFlags>) -> bool
    ensures { result ≡ spec.says_nothing (option_copied found.entry) }
{
    match found {
        None => true,
        Some(said) => !said.any && !said.strict && said.codes.is_empty(),
    }
}

/// Whether none of the tokens with these numbers has a clause.
fn without_clauses(said: &Clauses, ids: &[u64]) -> bool
    ensures { result ≡ spec.without_clauses said.now ids.now }
{
    ids.iter().all(|id| says_nothing(said.get(*id)))
}

/// Whether no position follows dots that are statements, a sign, or a word of a clause, and no dots that are members of a
/// list have a clause. Linear.
pub(crate) fn fits(
    alloc: Global,
    placed: &[Placed],
    cut: &Cutting,
    trees: &[Tree],
) -> Result<bool, NoMemory>
    ensures { IfOk result (λ b. b ≡ spec.fits placed.now cut.now trees.now) }
{
    let alone = statement_dots(alloc, trees)?;
    let members = list_dots(alloc, trees)?;
    let words = signs_fit(placed) && without_positions(placed, cut.words.as_slice());
    let dots = without_positions(placed, alone.as_slice())
        && without_clauses(&cut.said, members.as_slice());
    Ok(words && dots)
}
