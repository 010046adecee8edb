// A place of a text.
ghost use Rattle.std.specs.Prelude.{◌≡◌, ◌<◌, ◌+◌, ◌^◌};
ghost use Rattle.text_places.specs.Places.{place_after};

/// A place of a text: a line and a column, both from 1.
#[derive(Clone, Copy, Debug, PartialEq, Eq)]
pub struct Place {
    pub line: u64,
    /// Counted in bytes.
    pub column: u64,
}

/// Returns the place directly after a byte, given the byte and its place.
pub fn place_after(place: Place, byte: u8) -> Place
    requires line { place.line + 1 < 2 ^ 64 }
    requires column { place.column + 1 < 2 ^ 64 }
    ensures { result ≡ place_after place byte }
{
    if byte == b'\n' {
        Place {
            line: place.line + 1,
            column: 1,
        }
    } else {
        Place {
            line: place.line,
            column: place.column + 1,
        }
    }
}
