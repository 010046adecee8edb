// The faults of a body that trees spell.
ghost use Rattle.std.specs.Prelude.{◌≡◌, ◌++◌, slice_get, IfOk};
ghost use Rattle.std.specs.Option.{option_copied};
ghost use Rattle.smpl_patch.specs.Faults.{first_of, first_from};
ghost use Rattle.smpl_body.specs.Bodies as spec;

use crate::dots::statement_dots;
use crate::edges::all_edges;
use crate::fits::is_pat;
use crate::smpl_when::Cutting;
use c_terms::{NoMemory, Tree};
use smpl_meta::Placed;
use smpl_patch::{PatchFault, earlier};
use sqlite_items::at;
use std::alloc::Global;

fn at_of(found: Option<&Placed>) -> u32
    ensures { result ≡ spec.at_of (option_copied found.entry) }
{
    match found {
        None => 0,
        Some(p) => p.at,
    }
}

fn sign_of(found: Option<&Placed>) -> u8
    ensures { result ≡ spec.sign_of (option_copied found.entry) }
{
    match found {
        None => 0,
        Some(p) => p.sign,
    }
}

fn edge_fault(placed: &[Placed], ids: &[u64]) -> Option<PatchFault>
    ensures { result ≡ first_of (spec.edge_faults placed.now ids.now) }
{
    let mut first = None;
    for id in ids {
        let place = at_of(at(placed, *id as usize));
        first = Some(earlier(first, PatchFault::DotsAtEdge(place)));
    }
    first
}

/// Returns the first of the fault so far and the fault of the dots with this number.
fn with_dots(placed: &[Placed], first: Option<PatchFault>, id: u64) -> Option<PatchFault>
    ensures { result ≡ first_from first (spec.minus_dot placed.now id) }
{
    if sign_of(at(placed, id as usize)) == b'-' {
        let place = at_of(at(placed, id as usize));
        Some(earlier(first, PatchFault::MinusDots(place)))
    } else {
        first
    }
}

/// Returns the first fault of dots that are statements on `-` lines.
fn with_all_dots(placed: &[Placed], ids: &[u64]) -> Option<PatchFault>
    ensures { result ≡ first_of (spec.minus_dots placed.now ids.now) }
{
    let mut first = None;
    for id in ids {
        first = with_dots(placed, first, *id);
    }
    first
}

fn is_nest_sign(p: &Placed) -> bool
    ensures { result ≡ spec.is_nest_sign p.now }
{
    let text = p.token.text.as_bytes();
    is_pat(p.token.kind)
        && (text == b"<...".as_slice()
            || text == b"<+...".as_slice()
            || text == b"...>".as_slice()
            || text == b"...+>".as_slice())
}

fn with_sign(first: Option<PatchFault>, p: &Placed) -> Option<PatchFault>
    ensures { result ≡ first_from first (spec.minus_sign p.now) }
{
    if p.sign == b'-' && is_nest_sign(p) {
        Some(earlier(first, PatchFault::MinusDots(p.at)))
    } else {
        first
    }
}

/// Returns the first of the fault so far and the faults of signs of nests on `-` lines.
fn with_signs(placed: &[Placed], first: Option<PatchFault>) -> Option<PatchFault>
    ensures { result ≡ first_from first (spec.minus_signs placed.now) }
{
    let mut first = first;
    for p in placed {
        first = with_sign(first, p);
    }
    first
}

fn minus_fault(placed: &[Placed], ids: &[u64]) -> Option<PatchFault>
    ensures { result ≡ first_of (spec.minus_dots placed.now ids.now ++ spec.minus_signs placed.now) }
{
    with_signs(placed, with_all_dots(placed, ids))
}

/// Returns the first fault of a body that these trees spell. Faults of dots and nests at edges come before those on `-`
/// lines. Linear.
pub(crate) fn tree_fault(
    alloc: Global,
    placed: &[Placed],
    cut: &Cutting,
    trees: &[Tree],
) -> Result<Option<PatchFault>, NoMemory>
    ensures { IfOk result (λ f. f ≡ spec.tree_fault placed.now cut.now trees.now) }
{
    let edges = all_edges(alloc, cut.codes.as_slice(), trees)?;
    match edge_fault(placed, edges.as_slice()) {
        Some(fault) => Ok(Some(fault)),
        None => {
            let alone = statement_dots(alloc, trees)?;
            Ok(minus_fault(placed, alone.as_slice()))
        }
    }
}
