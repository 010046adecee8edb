// What is known of an item so far.
ghost use Rattle.std.specs.Prelude.{ℕ, ◌≡◌, ◌<◌, ◌≤◌, ◌+◌, ◌^◌, ◌∷◌, [], List};
ghost use Rattle.cpp_lines.specs.declared.sign.Sign.{Sign};
ghost use Rattle.cpp_lines.specs.Items.{ends_item, is_function};
ghost use Rattle.cpp_lines.specs.declared.sign.Sign.TheVariants.{Opening};
ghost use Rattle.cpp_lines.specs.SoFar.{so_far};

use crate::sign::{Bracket, Sign};

/// What the first `{` of an item outside all brackets begins.
#[derive(Clone, Copy, Debug, PartialEq, Eq)]
pub enum Body {
    /// There is no such `{` yet.
    Missing,
    /// A body: it is the first token, or it follows `)`.
    Function,
    /// Members, or an initialiser.
    Other,
}

/// What is known of the tokens of an item so far.
#[derive(Clone, Copy, Debug, PartialEq, Eq)]
pub struct ItemSoFar {
    pub depth: usize,
    pub body: Body,
    /// Whether a `{` here would begin a body: there is no token yet, or the last one is `)`.
    pub before_body: bool,
}

/// Returns what is known of an item with no tokens.
pub fn no_tokens() -> ItemSoFar
    ensures { result ≡ so_far [] }
{
    ItemSoFar {
        depth: 0,
        body: Body::Missing,
        before_body: true,
    }
}

/// Returns what is known with one more token.
pub fn with_token(item: ItemSoFar, sign: Sign) -> ItemSoFar
    requires { item.depth < 2 ^ 63 }
    ensures value { (tokens : List Sign) → item ≡ so_far tokens → result ≡ so_far (sign ∷ tokens) }
    ensures at_most { result.depth ≤ item.depth + 1 }
{
    match sign {
        Sign::Opening(bracket) => ItemSoFar {
            depth: item.depth + 1,
            body: body_with(item, bracket),
            before_body: false,
        },
        Sign::Closing(bracket) => ItemSoFar {
            depth: if item.depth > 0 { item.depth - 1 } else { 0 },
            body: item.body,
            before_body: bracket == Bracket::Paren,
        },
        _ => ItemSoFar {
            depth: item.depth,
            body: item.body,
            before_body: false,
        },
    }
}

/// Returns what the first `{` begins, with one more opening bracket.
fn body_with(item: ItemSoFar, bracket: Bracket) -> Body
    ensures { (tokens : List Sign) → item ≡ so_far tokens →
        result ≡ (so_far (Opening bracket ∷ tokens)).body }
{
    match item.body {
        Body::Missing => {
            if bracket == Bracket::Brace && item.depth == 0 {
                if item.before_body {
                    Body::Function
                } else {
                    Body::Other
                }
            } else {
                Body::Missing
            }
        }
        Body::Function => Body::Function,
        Body::Other => Body::Other,
    }
}

/// Whether a token ends the item.
pub fn ends_item(item: ItemSoFar, sign: Sign) -> bool
    ensures { (tokens : List Sign) → item ≡ so_far tokens → result ≡ ends_item sign tokens }
{
    match sign {
        Sign::Semicolon => item.depth == 0,
        Sign::Closing(Bracket::Brace) => item.depth == 1 && is_function(item.body),
        _ => false,
    }
}

fn is_function(body: Body) -> bool
    ensures { result ≡ is_function body }
{
    matches!(body, Body::Function)
}
