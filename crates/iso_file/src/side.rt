// The sides of a block, and the arrows between them.
ghost use Rattle.std.specs.Prelude.{◌≡◌, ◌++◌, ◌∷◌, [], IfOk};
ghost use Rattle.iso_file.specs.Sides as spec;
ghost use Rattle.iso_file.specs.Stepped as stepped;

use c_terms::NoMemory;
use smpl_lexer::{PatchToken, is_sign};
use sqlite_items::Items;
use std::alloc::Global;

/// Returns whether the arrow goes both ways if the two tokens, with nothing between them, are an arrow.
fn arrow_of(t: &PatchToken, next: &PatchToken) -> Option<bool>
    ensures { result ≡ spec.arrow_of t.now next.now }
{
    if !is_sign(next, b">") {
        None
    } else if is_sign(t, b"=") && u64::from(next.at) == u64::from(t.at) + 1 {
        Some(false)
    } else if is_sign(t, b"<=") && u64::from(next.at) == u64::from(t.at) + 2 {
        Some(true)
    } else {
        None
    }
}

/// Returns the same for the first two tokens.
fn arrow_first(tokens: &[PatchToken]) -> Option<bool>
    ensures { result ≡ stepped.arrow_first tokens.now }
{
    match tokens {
        [t, next, ..] => arrow_of(t, next),
        _ => None,
    }
}

/// Tokens split at arrows: the arrows, the sides, and the current side.
#[derive(Drop)]
pub struct Parting {
    pub both: Items<bool>,
    pub sides: Items<Items<PatchToken>>,
    pub side: Items<PatchToken>,
}

fn with_arrow(alloc: Global, parting: Parting, way: bool) -> Result<Parting, NoMemory>
    ensures { IfOk result (λ p. p ≡ stepped.with_arrow way parting) }
{
    let Parting {
        mut both,
        mut sides,
        side,
    } = parting;
    both.push(way)?;
    sides.push(side)?;
    Ok(Parting {
        both,
        sides,
        side: Items::new(alloc),
    })
}

fn with_token(alloc: Global, parting: Parting, t: &PatchToken) -> Result<Parting, NoMemory>
    ensures { IfOk result (λ p. p ≡ stepped.with_token t.now parting) }
{
    let Parting {
        both,
        sides,
        mut side,
    } = parting;
    side.push(t.copy(alloc)?)?;
    Ok(Parting { both, sides, side })
}

fn part_at_arrows(alloc: Global, tokens: &[PatchToken]) -> Result<Parting, NoMemory>
    ensures both { IfOk result (λ p. p.both ≡ spec.arrows_in tokens.now) }
    ensures sides { IfOk result (λ p. p.sides ++ p.side ∷ [] ≡ spec.sides_in tokens.now) }
{
    let mut parting = Parting {
        both: Items::new(alloc),
        sides: Items::new(alloc),
        side: Items::new(alloc),
    };
    let mut i = 0;
    while i < tokens.len() {
        match arrow_first(&tokens[i..]) {
            Some(way) => {
                parting = with_arrow(alloc, parting, way)?;
                i += 2;
            }
            None => {
                parting = with_token(alloc, parting, &tokens[i])?;
                i += 1;
            }
        }
    }
    Ok(parting)
}

/// Arrows, and the sides between them.
#[derive(Drop)]
pub struct Parted {
    /// Whether the arrow between each side and the next is `<=>`; otherwise it is `=>`.
    pub both: Items<bool>,
    pub sides: Items<Items<PatchToken>>,
}

/// Splits tokens at arrows. Takes linear time.
pub fn part(alloc: Global, tokens: &[PatchToken]) -> Result<Parted, NoMemory>
    ensures both { IfOk result (λ p. p.both ≡ spec.arrows_in tokens.now) }
    ensures sides { IfOk result (λ p. p.sides ≡ spec.sides_in tokens.now) }
{
    let Parting {
        both,
        mut sides,
        side,
    } = part_at_arrows(alloc, tokens)?;
    sides.push(side)?;
    Ok(Parted { both, sides })
}
