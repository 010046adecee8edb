// When two sets are evidently the same.
ghost use Rattle.std.specs.Prelude.{◌≡◌, ◌||◌, ◌++◌, true, ◌<◌, length, IfSome};
ghost use Rattle.std.specs.List.{list_any};
ghost use Rattle.smpl_terms.specs.declared.value.Value.{Value as Datum};
ghost use Rattle.smpl_terms.specs.Values.{same};
ghost use Rattle.smpl_terms.specs.Environments.{Environment};
ghost use Rattle.env_sets.specs.Bounds.{fits};
ghost use Rattle.env_sets.specs.Sets.{entry_denotes, set_denotes};
ghost use Rattle.env_sets.specs.Blocks.{all_entries};
ghost use Rattle.env_sets.specs.Laws.{StandForSame};

use crate::blocks::are_empty;
use crate::bounds::Bound;
use crate::entries::Entry;
use crate::excluded::Values;
use crate::sets::EnvSet;
use smpl_terms::{SharedList, Value, Var, same_value, same_var};

/// Whether both sets have the same entries in the same order, values compared ids aside; then both stand for the same
/// environments. The results of two calls that stand for the same environments may differ, in which case it is `false`.
///
/// It stops at the first difference, and takes no memory.
pub fn same_set(a: &EnvSet, b: &EnvSet) -> bool
    ensures meaning { result ≡ true → StandForSame a.now b.now }
{
    match (a.as_list(), b.as_list()) {
        (Some(es), Some(fs)) => same_entries(es, fs),
        _ => same_in_blocks(a, b),
    }
}

/// Like `same_set`, however the entries are stored.
fn same_in_blocks(a: &EnvSet, b: &EnvSet) -> bool
    ensures { result ≡ true → StandForSame a.now b.now }
{
    let (first, blocks) = a.blocks();
    let (es, rest) = b.blocks();
    match after(first, es, rest) {
        Some((es, rest)) => same_blocks(blocks, es, rest),
        None => false,
    }
}

/// Whether the blocks have the entries of a list and of other blocks, one by one.
fn same_blocks(blocks: &[SharedList<Entry>], es: &[Entry], others: &[SharedList<Entry>]) -> bool
    ensures { result ≡ true → (env : Environment) →
        set_denotes (all_entries blocks.now) env ≡ set_denotes (es.now ++ all_entries others.now) env }
{
    let (mut left, mut rest) = (es, others);
    for block in blocks {
        match after(block.as_slice(), left, rest) {
            Some(behind) => {
                left = behind.0;
                rest = behind.1;
            }
            None => return false,
        }
    }
    left.is_empty() && are_empty(rest)
}

/// Returns what is left of a list and blocks after the same entries as these, one by one.
fn after<'b>(
    entries: &[Entry],
    es: &'b [Entry],
    blocks: &'b [SharedList<Entry>],
) -> Option<(&'b [Entry], &'b [SharedList<Entry>])>
    ensures { IfSome result (λ behind. (env : Environment) → set_denotes (es.now ++ all_entries blocks.now) env
        ≡ (set_denotes entries.now env || set_denotes (behind.0.now ++ all_entries behind.1.now) env)) }
{
    let (mut own, mut left, mut rest) = (entries, es, blocks);
    while own.len() > 0 {
        if left.is_empty() {
            match rest {
                [] => return None,
                [block, others @ ..] => {
                    left = block.as_slice();
                    rest = others;
                }
            }
        } else {
            let count = if own.len() < left.len() {
                own.len()
            } else {
                left.len()
            };
            let (front, back) = own.split_at(count);
            let (same, behind) = left.split_at(count);
            if !same_entries(front, same) {
                return None;
            }
            own = back;
            left = behind;
        }
    }
    Some((left, rest))
}

fn same_entries(a: &[Entry], b: &[Entry]) -> bool
    ensures { result ≡ true → (env : Environment) → set_denotes a.now env ≡ set_denotes b.now env }
{
    if a.len() != b.len() {
        return false;
    }
    for i in 0..a.len() {
        if !same_entry(&a[i], &b[i]) {
            return false;
        }
    }
    true
}

fn same_entry(a: &Entry, b: &Entry) -> bool
    ensures { result ≡ true → (env : Environment) → entry_denotes a.now env ≡ entry_denotes b.now env }
{
    same_pairs(a.pairs(), b.pairs())
}

fn same_pairs(a: &[(Var, Bound)], b: &[(Var, Bound)]) -> bool
    ensures { result ≡ true → (env : Environment) → entry_denotes a.now env ≡ entry_denotes b.now env }
{
    if a.len() != b.len() {
        return false;
    }
    for i in 0..a.len() {
        if !same_pair(&a[i], &b[i]) {
            return false;
        }
    }
    true
}

fn same_pair(a: &(Var, Bound), b: &(Var, Bound)) -> bool
    ensures { result ≡ true → (env : Environment) → fits (env a.now.0) a.now.1 ≡ fits (env b.now.0) b.now.1 }
{
    same_var(&a.0, &b.0) && same_bound(&a.1, &b.1)
}

fn same_bound(a: &Bound, b: &Bound) -> bool
    ensures { result ≡ true → (x : Datum) → fits x a.now ≡ fits x b.now }
{
    match (a, b) {
        (Bound::Is(v), Bound::Is(w)) => same_value(v, w),
        (Bound::Not(vs), Bound::Not(ws)) => same_values(vs, ws),
        _ => false,
    }
}

/// Whether both lists have the same values, in any order: either stored alike, or each value looked up.
fn same_values(vs: &Values, ws: &Values) -> bool
    ensures { result ≡ true → (x : Datum) → list_any (λ v. same v x) vs.now ≡ list_any (λ w. same w x) ws.now }
{
    if vs.count() != ws.count() || vs.mark() != ws.mark() {
        return false;
    }
    if vs.are_alike(ws) {
        return true;
    }
    vs.are_among(ws) && ws.are_among(vs)
}

/// Whether the lists have the same values, one by one.
pub fn same_slices(vs: &[Value], ws: &[Value]) -> bool
    ensures { result ≡ true → (x : Datum) → list_any (λ v. same v x) vs.now ≡ list_any (λ w. same w x) ws.now }
{
    if vs.len() != ws.len() {
        return false;
    }
    for i in 0..vs.len() {
        if !same_value(&vs[i], &ws[i]) {
            return false;
        }
    }
    true
}
