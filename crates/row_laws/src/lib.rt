//! Laws of the rule on types in calls' lists: a type is a member only where no expression has the same tokens, and the
//! types in such an expression obey the same rule.
//!
//! - [`bounds_agree`]: `NoRival` applies the rule recursively up to a number of times, and each number that is at least the
//!   number of tokens gives the same trees.
//! - [`rule_is_one`]: so `NoRival` is the rule itself, and no other condition is.
//!
//! The functions do nothing.
#![tactic(auto)]

ghost use Rattle.std.specs.Prelude.{◌≤◌, ◌+◌, ℕ, Bool, IsTrue, List, length};
ghost use Rattle.c_terms.specs.declared.token.Token.{Token};
ghost use Rattle.c_terms.specs.declared.tree.Tree.{Tree};
ghost use Rattle.c_rows.specs.declared.kind.Kind.{Kind};
ghost use Rattle.c_rows.specs.Look.{Names};
ghost use Rattle.c_rows.specs.Derives.{Derives};
ghost use Rattle.c_rows.specs.Trees.{NoRival};
ghost use Rattle.row_laws.specs.Rule.{IsTheRule};

/// With two numbers that are at least the number of tokens, the same types have rivals (`types`), and the same trees are
/// derived, of each kind and up to each end (`trees`). If one of the numbers may be one less, this need not hold of types
/// (`least`). Does nothing.
pub fn bounds_agree()
    ensures types { (names : Names) (m n : ℕ) (xs ys : List Token) → length xs ≤ m → length xs ≤ n
        → NoRival names m xs ys → NoRival names n xs ys }
    ensures trees { (names : Names) (m n : ℕ) (kind : Kind) (xs ys : List Token) (t : Tree)
        → length xs ≤ m → length xs ≤ n
        → Derives names (NoRival names m) kind xs t ys → Derives names (NoRival names n) kind xs t ys }
    ensures least { ((names : Names) (m n : ℕ) (xs ys : List Token) → length xs ≤ m + 1 → length xs ≤ n
        → NoRival names m xs ys → NoRival names n xs ys) → ⊥ }
{}

/// `NoRival` with a number is the rule for lists of at most this many tokens (`rule`). Each test that is the rule for all
/// lists no longer than the tokens derives the same trees (`same`, `back`). Does nothing.
pub fn rule_is_one()
    ensures rule { (names : Names) (n : ℕ) → IsTheRule names n (NoRival names n) }
    ensures same { (names : Names) (may : List Token → List Token → Bool) (kind : Kind) (xs ys : List Token) (t : Tree)
        → IsTheRule names (length xs) (λ us vs. IsTrue (may us vs))
        → Derives names (NoRival names (length xs)) kind xs t ys
        → Derives names (λ us vs. IsTrue (may us vs)) kind xs t ys }
    ensures back { (names : Names) (may : List Token → List Token → Bool) (kind : Kind) (xs ys : List Token) (t : Tree)
        → IsTheRule names (length xs) (λ us vs. IsTrue (may us vs))
        → Derives names (λ us vs. IsTrue (may us vs)) kind xs t ys
        → Derives names (NoRival names (length xs)) kind xs t ys }
{}
