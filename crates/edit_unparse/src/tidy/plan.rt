// Where the inserts of edits stand, and which tokens go.
ghost use Rattle.std.specs.Prelude.{◌≡◌, ◌≤◌, false, true, length, nat_lt};
ghost use Rattle.std.specs.List.{prefix_len};
ghost use Rattle.std.specs.List.Sorted.{IsNonDecreasingBy, IsPartitionPoint};
ghost use Rattle.edit_unparse.specs.Tidy.Spots.{is_number, placed_number, spot, spot_number};

use tidy_flags::{flag_at, number_at};

/// A side of a token's place.
#[derive(Clone, Copy, Debug, PartialEq, Eq)]
pub struct Spot {
    pub token: u32,
    pub after: bool,
}

/// An insert at the place where it stands in the new text.
#[derive(Clone, Copy, Debug)]
pub struct Placed {
    pub spot: Spot,
    /// The number of its edit.
    pub edit: usize,
    /// Its number in the edit.
    pub insert: usize,
    /// How deep the statement of its edit's pattern is.
    pub depth: u32,
}

/// Which tokens go, and where inserts stand.
#[derive(Drop)]
pub struct Plan {
    /// The number of each token's piece.
    pub pieces: Vec<u32>,
    /// For each token whether it goes.
    pub removed: Vec<bool>,
    /// For each token whether it is joined to the one before it.
    pub joined: Vec<bool>,
    /// By place, in the order in which they stand there.
    pub inserts: Vec<Placed>,
    ghost rise: { IsNonDecreasingBy placed_number inserts.items },
}

impl Plan {
    ghost use Rattle.std.specs.Prelude.{get_or, filter};

    /// Returns the number of tokens.
    pub fn count(&self) -> usize
        ensures { result ≡ length self.now.pieces.items }
    {
        self.pieces.len()
    }

    /// Returns the number of a token's piece.
    pub fn piece(&self, token: usize) -> u32
        ensures { result ≡ get_or self.now.pieces.items token 0 }
    {
        number_at(self.pieces.as_slice(), token)
    }

    /// Whether a token goes.
    pub fn goes(&self, token: usize) -> bool
        ensures { result ≡ get_or self.now.removed.items token false }
    {
        flag_at(self.removed.as_slice(), token)
    }

    /// Whether nothing but blanks that go stands between a token and the one before it.
    pub fn is_joined(&self, token: usize) -> bool
        ensures { result ≡ get_or self.now.joined.items token false }
    {
        flag_at(self.joined.as_slice(), token)
    }

    /// Returns the inserts on one side of a token's place, in their order. Takes log n steps for n inserts, and one for each
    /// that it returns.
    pub fn at(&self, token: u32, after: bool) -> &[Placed]
        ensures { result.now ≡ filter (is_number (spot_number (spot token after))) self.now.inserts.items }
    {
        let inserts = self.inserts.as_slice();
        let number = spot_number(Spot { token, after });
        let rest = &inserts[first_from(inserts, number)..];
        &rest[..run_from(rest, number)]
    }
}

/// Returns how many inserts stand before this place. They are sorted by place.
fn first_from(inserts: &[Placed], number: u64) -> usize
    requires { IsNonDecreasingBy placed_number inserts.now }
    ensures within { result ≤ length inserts.now }
    ensures apart { IsPartitionPoint (λ p. nat_lt (placed_number p) number ≡ true)
        (λ p. nat_lt (placed_number p) number ≡ false) inserts.now result }
{
    inserts.partition_point(|it| spot_number(it.spot) < number)
}

/// Returns how many inserts at the front stand at this place.
fn run_from(inserts: &[Placed], number: u64) -> usize
    ensures value { result ≡ prefix_len (is_number number) inserts.now }
    ensures within { result ≤ length inserts.now }
{
    inserts
        .iter()
        .take_while(|it| spot_number(it.spot) == number)
        .count()
}

/// Returns the place of a spot among those of all tokens: two for each token, the one before it first.
pub fn spot_number(spot: Spot) -> u64
    ensures { result ≡ spot_number spot }
{
    let number = 2 * spot.token as u64;
    if spot.after { number + 1 } else { number }
}
