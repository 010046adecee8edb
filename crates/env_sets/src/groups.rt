// The entries of a set, grouped by the value at which they fix one variable.
ghost use Rattle.std.specs.Prelude.{◌≡◌, ◌++◌, ◌<◌, Bool, true, false, [], ◌∷◌, length, slice_index_or, IfOk, IfSome};
ghost use Rattle.smpl_terms.specs.declared.var.Var.{Var};
ghost use Rattle.smpl_terms.specs.declared.value.Value.{Value as Datum};
ghost use Rattle.smpl_terms.specs.Values.{same};
ghost use Rattle.smpl_terms.specs.Environments.{Environment};
ghost use Rattle.env_sets.specs.Rising.{Rise};
ghost use Rattle.env_sets.specs.Sets.{Entries, entry_denotes, entry_vars, set_vars};
ghost use Rattle.env_sets.specs.Splits.{AreGroupsOf, HaveVars};

use crate::entries::Entry;
use crate::listed::EntryList;
use crate::parts::{empty_lists, fixed_value};
use crate::values::{ValueList, distinct, place_in_order};
use c_terms::NoMemory;
use smpl_terms::{Value, Var};
use std::alloc::Global;

/// A set grouped by one variable: the values at which entries fix it, in order, each once; the entries for each of these
/// values; and all other entries.
#[derive(Drop)]
pub struct Groups {
    pub values: ValueList,
    pub groups: Vec<EntryList>,
    pub others: EntryList,
}

/// Groups a set by x. Copies each entry once, and sorts the values.
pub fn groups_by(alloc: Global, b: &[Entry], x: &Var) -> Result<Groups, NoMemory>
    ensures rise { IfOk result (λ g. Rise g.values) }
    ensures meaning { IfOk result (λ g. AreGroupsOf x.now g.values b.now g.groups.items g.others) }
    ensures vars { IfOk result (λ g. (t : Var → Bool) → set_vars t b.now ≡ true →
        HaveVars t g.groups.items g.others) }
{
    let values = values_at(alloc, b, x)?;
    let mut groups = empty_lists(alloc, values.as_slice().len())?;
    let mut others = Vec::new(alloc);
    for e in b {
        put_in_group(alloc, &mut groups, &mut others, e, x, values.as_slice())?;
    }
    Ok(Groups {
        values,
        groups,
        others: EntryList::of(others),
    })
}

/// Returns the values at which entries fix x, in order, each once.
fn values_at(alloc: Global, b: &[Entry], x: &Var) -> Result<ValueList, NoMemory>
    ensures rise { IfOk result (λ vs. Rise vs) }
{
    let mut values = Vec::new(alloc);
    for e in b {
        if let Some(v) = fixed_value(e, x) {
            values.push(v.copy(alloc)?)?;
        }
    }
    distinct(alloc, values)
}

/// Adds the entry to the group of the value at which it fixes x, or to the others if there is none.
fn put_in_group(
    alloc: Global,
    groups: &mut [EntryList],
    others: &mut Vec<Entry>,
    e: &Entry,
    x: &Var,
    values: &[Value],
) -> Result<(), NoMemory>
    requires rise { Rise values.now }
    requires count { length groups.now ≡ length values.now }
    ensures meaning { IfOk result (λ _. (es : Entries) →
        AreGroupsOf x.now values.now es groups.old others.old.items →
        AreGroupsOf x.now values.now (es ++ e.now ∷ []) groups.new others.new.items) }
    ensures vars { IfOk result (λ _. (t : Var → Bool) → HaveVars t groups.old others.old.items →
        entry_vars t e.now ≡ true → HaveVars t groups.new others.new.items) }
{
    match group_of(e, x, values) {
        Some(k) => {
            groups[k].put(e.copy(alloc)?)?;
            Ok(())
        }
        None => {
            others.push(e.copy(alloc)?)?;
            Ok(())
        }
    }
}

/// Returns the index of the value at which the entry fixes x.
fn group_of(e: &Entry, x: &Var, values: &[Value]) -> Option<usize>
    requires rise { Rise values.now }
    ensures { IfSome result (λ k. (k < length values.now) × ((env : Environment) →
        (w : Datum) → w ≡ slice_index_or values.now k w → same w (env x.now) ≡ false →
        entry_denotes e.now env ≡ false)) }
{
    let v = fixed_value(e, x)?;
    place_in_order(values, v)
}
