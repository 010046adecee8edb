//! Splits the body of a rule into its own tokens and its `when` clauses.
//!
//! - [`cut`] returns the tokens outside clauses, the code of each `when !=`, and what the clauses of each token say.
//! - [`bodies_are_parted_once`] and [`own_tokens_are_main`] are laws: their contracts hold, and their bodies are empty.
//!
//! A clause is `when any`, `when strict` or `when != code`. It directly follows dots, the end of a nest, or another clause.
//! Code extends to the end of its line.
//!
//! In `... when any when != f(x)` the dots have two clauses, and the code is `f(x)`. A `when` that begins none of the three
//! is reported by [`Cutting::broken`]. What the tokens spell is left to the callers.
#![tactic(auto)]

ghost use Rattle.std.specs.Prelude.{◌≡◌, List, map, false};
ghost use Rattle.smpl_meta.specs.declared.patterns.Placed.{Placed as Word};
ghost use Rattle.smpl_meta.specs.Patterns.{split};
ghost use Rattle.smpl_body.specs.SmplWhen.Cutting.{cut as cut_of};
ghost use Rattle.smpl_body.specs.SmplWhen.Grammar.{IsCut, IsParted, Parts, Apart};

mod clauses;
mod cutting;

pub use clauses::{Clauses, WhenFlags};
pub use cutting::{Code, Cutting, OpenCode, Where, cut};

/// [`cut`] splits a body as the grammar of clauses does, and the grammar splits it in exactly one way. Does nothing.
pub fn bodies_are_parted_once()
    ensures cut { (ps : List Word) → IsCut ps (cut_of ps) }
    ensures once { (ps : List Word) (one other : Parts) → IsParted false Apart ps one →
        IsParted false Apart ps other → one ≡ other }
{}

/// The tokens outside clauses are those that `split` of smpl_meta leaves outside, to which plus code is anchored. Does
/// nothing.
pub fn own_tokens_are_main()
    ensures { (ps : List Word) → (cut_of ps).main ≡ map (λ (p : Word). p.token) (split ps).main }
{}
