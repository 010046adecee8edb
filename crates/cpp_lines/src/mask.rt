// The bracket groups of attributes.
ghost use Rattle.std.specs.Prelude.{ℕ, ◌≡◌, ◌<◌, ◌≤◌, ◌+◌, ◌^◌, ◌∷◌, [], List, nat_lt};
ghost use Rattle.cpp_lines.specs.declared.sign.Sign.{Sign};
ghost use Rattle.cpp_lines.specs.Shown.{is_enclosed, is_masked};
ghost use Rattle.cpp_lines.specs.declared.sign.Sign.TheVariants.{Opening};
ghost use Rattle.cpp_lines.specs.Masks.{Tells};

use crate::sign::{Bracket, Sign};

/// What is known of the tokens before a place.
#[derive(Clone, Copy, Debug, PartialEq, Eq)]
pub struct Mask {
    /// The number of open brackets in the group of an attribute, including the group's own.
    pub depth: usize,
    /// Whether the last token is `__attribute__`.
    pub after_attribute: bool,
}

/// Returns what is known before the first token.
pub fn no_mask() -> Mask
    ensures tells { Tells [] result }
    ensures none { result.depth ≡ 0 }
{
    Mask {
        depth: 0,
        after_attribute: false,
    }
}

/// Returns what is known with one more token.
pub fn mask_with(mask: Mask, sign: Sign) -> Mask
    requires { mask.depth < 2 ^ 63 }
    ensures tells { (tokens : List Sign) → Tells tokens mask → Tells (sign ∷ tokens) result }
    ensures at_most { result.depth ≤ mask.depth + 1 }
{
    match sign {
        Sign::Opening(bracket) => Mask {
            depth: opened(mask, bracket),
            after_attribute: false,
        },
        Sign::Closing(_) => Mask {
            depth: if mask.depth > 0 { mask.depth - 1 } else { 0 },
            after_attribute: false,
        },
        Sign::Attribute => Mask {
            depth: mask.depth,
            after_attribute: true,
        },
        _ => Mask {
            depth: mask.depth,
            after_attribute: false,
        },
    }
}

/// Returns how many brackets are open with one more opening bracket.
fn opened(mask: Mask, bracket: Bracket) -> usize
    requires { mask.depth < 2 ^ 63 }
    ensures tells { (tokens : List Sign) → Tells tokens mask → (closed : ℕ) →
        is_enclosed closed (Opening bracket ∷ tokens) ≡ nat_lt closed result }
    ensures at_most { result ≤ mask.depth + 1 }
{
    if mask.depth > 0 || (mask.after_attribute && bracket == Bracket::Paren) {
        mask.depth + 1
    } else {
        0
    }
}

/// Whether a token is masked: a marker, an `__attribute__`, or in its bracket group.
pub fn is_masked(mask: Mask, sign: Sign) -> bool
    ensures { (tokens : List Sign) → Tells tokens mask → result ≡ is_masked sign tokens }
{
    match sign {
        Sign::Marker => true,
        Sign::Attribute => true,
        Sign::Opening(Bracket::Paren) => mask.after_attribute || mask.depth > 0,
        _ => mask.depth > 0,
    }
}
