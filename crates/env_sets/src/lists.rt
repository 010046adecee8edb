// What two lists of values have in common, and what only the first has.
ghost use Rattle.std.specs.Prelude.{◌≡◌, ◌&&◌, not, IfOk};
ghost use Rattle.std.specs.List.{list_any};
ghost use Rattle.smpl_terms.specs.declared.value.Value.{Value as Datum};
ghost use Rattle.smpl_terms.specs.Values.{same};

use crate::excluded::Values;
use crate::values::ValueList;
use c_terms::NoMemory;
use std::alloc::Global;

/// Returns the values of the first list that the second has too. Looks up each value of the first.
pub fn common(alloc: Global, vs: ValueList, ws: &Values) -> Result<ValueList, NoMemory>
    ensures { IfOk result (λ r. (z : Datum) → list_any (λ v. same v z) r ≡
        (list_any (λ v. same v z) vs && list_any (λ v. same v z) ws.now)) }
{
    let mut kept = Vec::new(alloc);
    for v in vs.into_vec() {
        if ws.have(&v) {
            kept.push(v)?;
        }
    }
    Ok(ValueList::of(kept))
}

/// Returns the values of the first list that the second does not have. Looks up each value of the first.
pub fn apart(alloc: Global, vs: ValueList, ws: &ValueList) -> Result<ValueList, NoMemory>
    ensures { IfOk result (λ r. (z : Datum) → list_any (λ v. same v z) r ≡
        (list_any (λ v. same v z) vs && not (list_any (λ v. same v z) ws.now))) }
{
    let mut kept = Vec::new(alloc);
    for v in vs.into_vec() {
        if !ws.have(&v) {
            kept.push(v)?;
        }
    }
    Ok(ValueList::of(kept))
}
