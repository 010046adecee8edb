// What the trees of a text say of the tidied text.
ghost use Rattle.std.specs.List.Sorted.{IsNonDecreasingBy};
ghost use Rattle.edit_unparse.specs.Tidy.Spots.{brace_number};

use crate::tidy::commas::CommaList;
use crate::tidy::flags::Extent;
use crate::tidy::parts::Brace;

/// What the trees of a text say of the tidied text.
#[derive(Drop)]
pub struct Layout {
    /// The statements of which nothing stays, the outermost alone.
    pub gone: Vec<Extent>,
    /// For each edit how deep the statement of its pattern is.
    pub depths: Vec<u32>,
    /// The lists of the touched items.
    pub lists: Vec<CommaList>,
    /// The braces that come, sorted by place.
    pub braces: Vec<Brace>,
    ghost rise: { IsNonDecreasingBy brace_number braces.items },
}
