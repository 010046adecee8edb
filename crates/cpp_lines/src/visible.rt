// The tokens of a text that are shown.
ghost use Rattle.std.specs.Prelude.{◌≡◌, ◌<◌, ◌≤◌, length, All};
ghost use Rattle.std.specs.List.Sorted.{IsStrictlyIncreasing};
ghost use Rattle.c_lexer.specs.Pieces.{most_bytes};

use c_lexer::Lexed;
use std::marker::Model;

/// A text with its pieces, and the numbers of the shown pieces. Contracts see both as lists.
#[derive(Drop)]
pub struct Visible {
    pub(crate) lexed: Lexed,
    pub(crate) shown: Vec<u32>,
}

impl Model for Visible {
    ghost use Rattle.cpp_lines.specs.Visible.{VisibleTokens};
    ghost use Rattle.cpp_lines.specs.Rising.{AreNumbers};

    ghost Value = { VisibleTokens };

    ghost view = { λ v. record { pieces = v.lexed; shown = v.shown.items } };

    ghost invariant = { λ v. AreNumbers v.lexed v.shown.items };
}

impl Visible {
    /// Returns the text with its pieces.
    pub fn lexed(&self) -> &Lexed
        ensures lexed { result.now ≡ self.now.pieces }
    {
        &self.lexed
    }

    /// Returns the numbers of the shown pieces, in increasing order.
    pub fn shown(&self) -> &[u32]
        ensures shown { result.now ≡ self.now.shown }
        ensures rising { IsStrictlyIncreasing result.now }
        ensures within { All (λ number. number < length self.now.pieces) result.now }
        ensures at_most { length result.now ≤ most_bytes }
    {
        self.shown.as_slice()
    }
}
