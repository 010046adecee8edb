// The places of a rule's pattern tokens.
ghost use Rattle.std.specs.Prelude.{◌≡◌, IfOk};
ghost use Rattle.smpl_notes.specs.Notes as spec;

use c_terms::NoMemory;
use smpl_meta::Placed;
use std::alloc::Global;
use text_places::{Place, Places};

/// Returns the places of the tokens. Linear in them and in the bytes up to the last; the bytes before the last one that was
/// looked for aren't read again.
pub fn places_of(
    alloc: Global,
    places: &mut Places<'_>,
    placed: &[Placed],
) -> Result<Vec<Place>, NoMemory>
    ensures table { IfOk result (λ table. table.items ≡ spec.places places.old placed.now) }
    ensures same { places.new ≡ places.old }
{
    let mut table = Vec::with_capacity(alloc, placed.len())?;
    for p in placed {
        table.push(places.place(p.at as usize))?;
    }
    Ok(table)
}
