// How many patterns a tree has.
ghost use Rattle.std.specs.Prelude.{◌≡◌, ◌≤◌, ◌^◌, IfSome, IfNone};
ghost use Rattle.smpl_body.specs.SmplElem.Elements.{atoms};

use crate::smpl_elem::form::{after, before, form_at, is_part, kids, label_at};
use c_terms::Tree;

/// Returns the number of patterns in the elements of a tree, if it fits in a `u32`. Takes no memory, is linear, and
/// recurses once per level.
pub fn count_atoms(tree: &Tree) -> Option<u32>
    ensures value { IfSome result (λ n. n ≡ atoms tree.now) }
    ensures many { IfNone result (2 ^ 32 ≤ atoms tree.now) }
{
    let form = form_at(tree);
    let label = label_at(tree);
    let children = kids(tree);
    let mut count: u32 = before(form);
    for (i, child) in children.iter().enumerate() {
        if !is_part(form, label, children.len(), i, child) {
            continue;
        }
        let more = count_atoms(child)?;
        count = count.checked_add(more)?;
    }
    count.checked_add(after(form))
}
