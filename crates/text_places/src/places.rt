// The places of bytes of a text.
ghost use Rattle.std.specs.Prelude.{◌≡◌, ◌≤◌, length};
ghost use Rattle.text_places.specs.Places.{place_of};

use crate::place::{Place, place_after};
use std::marker::Model;

/// The place of a text's first byte.
const FIRST: Place = Place { line: 1, column: 1 };

/// Returns the place of the byte `end`, given the place of a byte that isn't after it.
fn place_from(text: &[u8], place: Place, start: usize, end: usize) -> Place
    requires order { start ≤ end }
    requires within { end ≤ length text.now }
    requires place { place ≡ place_of text.now start }
    ensures { result ≡ place_of text.now end }
{
    let mut place = place;
    for i in start..end {
        place = place_after(place, text[i]);
    }
    place
}

/// The places of bytes of one text. Contracts see the text.
#[derive(Drop)]
pub struct Places<'t> {
    text: &'t [u8],
    /// The byte that was looked for last.
    at: usize,
    place: Place,
}

impl<'t> Model for Places<'t> {
    ghost use Rattle.std.specs.Prelude.{List, ℕ, ◌≡◌, ◌≤◌, length};
    ghost use Rattle.text_places.specs.Places.{place_of};

    ghost Value = { List ℕ };

    ghost view = { λ p. p.text.now };

    ghost invariant = { λ p. (p.at ≤ length p.text.now) × (p.place ≡ place_of p.text.now p.at) };
}

impl<'t> Places<'t> {
    /// Begins at the start of a text.
    pub fn of(text: &'t [u8]) -> Places<'t>
        ensures text { result ≡ text.now }
    {
        Places {
            text,
            at: 0,
            place: FIRST,
        }
    }

    /// Returns the place of the byte with this offset; after the end of the text it is the place of the end.
    ///
    /// Linear in the bytes since the last call; begins anew if this byte is before that one. So the places of bytes in their
    /// order cost one pass over the text together.
    pub fn place(&mut self, at: usize) -> Place
        ensures place { result ≡ place_of self.old at }
        ensures same { self.new ≡ self.old }
    {
        let end = at.min(self.text.len());
        let place = if self.at <= end {
            place_from(self.text, self.place, self.at, end)
        } else {
            place_from(self.text, FIRST, 0, end)
        };
        self.at = end;
        self.place = place;
        place
    }
}

/// Returns the place of the byte with this offset in a text; after the end of the text it is the place of the end. Linear in
/// the bytes before it.
pub fn place_of(text: &[u8], at: usize) -> Place
    ensures place { result ≡ place_of text.now at }
{
    Places::of(text).place(at)
}
