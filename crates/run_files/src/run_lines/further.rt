// The further line about a place.
ghost use Rattle.std.specs.Prelude.{◌≡◌, ◌++◌, OnOk};
ghost use Rattle.run_files.specs.RunLines.Further as spec;

use c_terms::NoMemory;
use outer_io::escaped_name;
use text_places::{Place, Places, place_of};
use wit_print::TextBuffer;

/// Appends the further line about a place of a file or a patch of this name, and what is there.
pub fn put_further(
    line: &mut TextBuffer,
    name: &str,
    place: Place,
    what: &[u8],
) -> Result<(), NoMemory>
    ensures { OnOk result (line.new ≡ line.old ++ spec.further name.now place what.now) }
{
    let shown = escaped_name(line.alloc(), name.as_bytes())?;
    line.put(b"  ")?;
    line.put(&shown)?;
    line.put_numbered(b":", place.line)?;
    line.put_numbered(b":", place.column)?;
    line.put(b": ")?;
    line.put(what)?;
    line.put(b"\n")
}

/// Appends the further line, or nothing if there is no place.
pub fn put_further_at(
    line: &mut TextBuffer,
    name: &str,
    place: Option<Place>,
    what: &[u8],
) -> Result<(), NoMemory>
    ensures { OnOk result (line.new ≡ line.old ++ spec.further_at name.now place what.now) }
{
    match place {
        None => Ok(()),
        Some(place) => put_further(line, name, place, what),
    }
}

/// Returns the place that is told: none under `--quiet`.
pub fn told_place(quiet: bool, place: Option<Place>) -> Option<Place>
    ensures place { result ≡ spec.told_place quiet place }
{
    if quiet { None } else { place }
}

/// Returns the place of a byte of a text, if there is such a byte. Linear in the bytes before it.
pub fn placed(text: &[u8], at: Option<u32>) -> Option<Place>
    ensures place { result ≡ spec.placed text.now at }
{
    match at {
        None => None,
        Some(at) => Some(place_of(text, at as usize)),
    }
}

/// Like [`placed`], but linear in the bytes since the last call for the text.
pub fn placed_on(places: &mut Places<'_>, at: Option<u32>) -> Option<Place>
    ensures place { result ≡ spec.placed places.old at }
    ensures same { places.new ≡ places.old }
{
    match at {
        None => None,
        Some(at) => Some(places.place(at as usize)),
    }
}
