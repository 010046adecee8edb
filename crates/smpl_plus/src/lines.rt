// Lines of plus code, cut again for their blanks.
ghost use Rattle.std.specs.Prelude.{◌≡◌, ◌≤◌, ◌<◌, ◌+◌, ◌^◌, ◌++◌, ◌∷◌, [], ℕ, List, length, IfOk};
ghost use Rattle.smpl_plus.specs.Blocks as spec;
ghost use Rattle.smpl_plus.specs.Blocks.{AreGaps, IsPlusLine};

use c_lexer::{Kind, first_piece};
use c_terms::{NoMemory, Text};
use smpl_lexer::BodyLine;
use smpl_meta::{VarTable, made_all};
use smpl_patch::PlusLine;
use sqlite_items::Items;
use std::alloc::Global;

/// The blanks before the tokens so far, and those before the next token.
#[derive(Drop)]
pub struct Gaps {
    pub gaps: Items<Text>,
    pub blank: Items<u8>,
}

/// Ends the blanks so far, which are before a token.
fn ended(alloc: Global, before: Gaps) -> Result<Gaps, NoMemory>
    ensures gaps { IfOk result (λ r. r.gaps ≡ before.gaps ++ before.blank ∷ []) }
    ensures blank { IfOk result (λ r. r.blank ≡ []) }
{
    let Gaps { mut gaps, blank } = before;
    gaps.push(Text::from_bytes(alloc, blank.as_slice())?)?;
    Ok(Gaps {
        gaps,
        blank: Items::new(alloc),
    })
}

fn with_blank(alloc: Global, before: Gaps, text: &[u8]) -> Result<Gaps, NoMemory>
    ensures gaps { IfOk result (λ r. r.gaps ≡ before.gaps) }
    ensures blank { IfOk result (λ r. r.blank ≡ before.blank ++ text.now) }
{
    let Gaps { gaps, mut blank } = before;
    blank.append(Items::from_slice(alloc, text)?)?;
    Ok(Gaps { gaps, blank })
}

/// Adds one more piece.
fn with_piece(alloc: Global, before: Gaps, kind: Kind, text: &[u8]) -> Result<Gaps, NoMemory>
    ensures { IfOk result (λ r. (more : List ℕ → List (List ℕ)) →
        before.gaps ++ spec.gaps_by kind text.now before.blank more ≡ r.gaps ++ more r.blank) }
{
    match kind {
        Kind::Blank => with_blank(alloc, before, text),
        Kind::Comment => Ok(before),
        Kind::Line => Ok(before),
        Kind::Name => ended(alloc, before),
        Kind::Keyword => ended(alloc, before),
        Kind::Number => ended(alloc, before),
        Kind::Char => ended(alloc, before),
        Kind::Str => ended(alloc, before),
        Kind::Punct => ended(alloc, before),
        Kind::Stray => ended(alloc, before),
    }
}

/// Returns the blanks directly before each token. Leaves comments out first. Linear.
fn gaps_of(alloc: Global, bytes: &[u8]) -> Result<Items<Text>, NoMemory>
    ensures { IfOk result (AreGaps bytes.now) }
{
    let mut so_far = Gaps {
        gaps: Items::new(alloc),
        blank: Items::new(alloc),
    };
    let mut start = 0;
    while start < bytes.len() {
        let (kind, len) = first_piece(&bytes[start..]);
        let end = start + len;
        so_far = with_piece(alloc, so_far, kind, &bytes[start..end])?;
        start = end;
    }
    Ok(so_far.gaps)
}

fn lead_of(gaps: &[Text]) -> u32
    requires { spec.lead_of gaps.now < 2 ^ 32 }
    ensures { result ≡ spec.lead_of gaps.now }
{
    match gaps {
        [] => 0,
        [gap, ..] => gap.as_bytes().len() as u32,
    }
}

/// Returns the line with its metavariables and its blanks. Linear.
pub fn plus_line(alloc: Global, vars: &VarTable<'_>, l: &BodyLine) -> Result<PlusLine, NoMemory>
    requires { length l.now.text < 2 ^ 31 }
    ensures { IfOk result (IsPlusLine vars.now l.now) }
{
    let mut bytes = Vec::from_slice(alloc, l.text.as_bytes())?;
    bytes.push(b'\n')?;
    let gaps = gaps_of(alloc, bytes.as_slice())?;
    let lead = lead_of(gaps.as_slice());
    let tokens = made_all(alloc, vars, l.tokens.as_slice())?;
    Ok(PlusLine { lead, tokens, gaps })
}
