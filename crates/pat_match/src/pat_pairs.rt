//! What a match is made of: which of the file's tokens each token of a pattern is aligned with.
//!
//! - [`aligned_tokens`] returns, for a subtree at which a pattern matches, the tokens of the pattern's first form that fits
//!   there, each with the file's tokens that it is aligned with ([`AlignedToken`]).
//!
//! `f(..., E)` at `f(a, b, c)`, when `E` is `c`, aligns `f`, `(` and `)` with the equal tokens, the dots with `a`, `,` and `b`,
//! the pattern's comma with the second comma, and `E` with `c`.
//!
//! Under one environment nothing is guessed: in a disjunction the first branch that fits is aligned, and in a list each child,
//! from the left, takes as few members as it can such that the children after it still fit.
//!
//! Calls recurse a few times per level of a form, and once per level of a subtree that a variable or a run takes. The crates
//! that use this one decide what an alignment removes and inserts.
#![tactic(auto)]

mod bound;
mod fewest;
mod own;
mod pairing;
mod pairs;
mod spots;

pub use pairs::AlignedToken;
pub use spots::aligned_tokens;
