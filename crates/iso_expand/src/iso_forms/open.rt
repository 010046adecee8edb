// Where a tree may be replaced.
ghost use Rattle.std.specs.Prelude.{◌≡◌, slice_get, IfOk};
ghost use Rattle.std.specs.List.{list_all};
ghost use Rattle.iso_expand.specs.IsoForms.Replacing as spec;

use c_terms::{NoMemory, Token, Tree, leaves};
use smpl_patch::{Mark, PatToken};
use std::alloc::Global;

fn mark_number(mark: Mark) -> u8
    ensures { result ≡ spec.mark_number mark }
{
    match mark {
        Mark::Context => 0,
        Mark::Minus => 1,
        Mark::Star => 2,
    }
}

fn mark_of(tokens: &[PatToken], id: u64) -> u8
    ensures { result ≡ spec.mark_of (slice_get tokens.now id) }
{
    match tokens.get(id as usize) {
        Some(p) => mark_number(p.mark),
        None => 0,
    }
}

fn stands_alone(p: &PatToken) -> bool
    ensures { result ≡ spec.stands_alone p.now }
{
    p.positions.len() == 0 && !p.before.is_some() && !p.after.is_some()
}

/// Whether the token has neither a position nor plus code.
fn is_plain(tokens: &[PatToken], id: u64) -> bool
    ensures { result ≡ spec.is_plain (slice_get tokens.now id) }
{
    match tokens.get(id as usize) {
        Some(p) => stands_alone(p),
        None => true,
    }
}

fn is_plain_of(tokens: &[PatToken], mark: u8, token: &Token) -> bool
    ensures { result ≡ spec.is_plain_of tokens.now mark token.now }
{
    is_plain(tokens, token.id) && mark_of(tokens, token.id) == mark
}

fn are_plain_of(tokens: &[PatToken], mark: u8, all: &[Token]) -> bool
    ensures { result ≡ list_all (spec.is_plain_of tokens.now mark) all.now }
{
    all.iter().all(|token| is_plain_of(tokens, mark, token))
}

fn are_plain(tokens: &[PatToken], all: &[Token]) -> bool
    ensures { result ≡ spec.are_plain tokens.now all.now }
{
    match all.first() {
        None => false,
        Some(token) => are_plain_of(tokens, mark_of(tokens, token.id), all),
    }
}

/// Whether there are tokens, all carry one mark, and none has a position or plus code. Takes linear time.
pub fn is_open(alloc: Global, tokens: &[PatToken], tree: &Tree) -> Result<bool, NoMemory>
    ensures { IfOk result (λ b. b ≡ spec.is_open tokens.now tree.now) }
{
    let all = leaves(alloc, tree)?;
    Ok(are_plain(tokens, all.as_slice()))
}
