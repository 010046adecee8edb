// The words for kinds of metavariables, and which of them a word was meant to be.
ghost use Rattle.std.specs.Prelude.{◌≡◌, IfOk};
ghost use Rattle.smpl_notes.specs.KindWords as spec;

use c_terms::{NoMemory, same_text};
use std::alloc::Global;
use strsim::generic_levenshtein;

/// A word with which declarations of metavariables of a kind begin.
#[derive(Clone, Copy, Debug, PartialEq, Eq)]
pub enum KindWord {
    Expression,
    Identifier,
    Constant,
    Type,
    Parameter,
    Statement,
    Position,
    Symbol,
    Idexpression,
}

impl KindWord {
    /// Returns the word as it is written.
    pub fn text(self) -> &'static [u8]
        ensures text { result.now ≡ spec.kind_text self }
    {
        match self {
            KindWord::Expression => b"expression",
            KindWord::Identifier => b"identifier",
            KindWord::Constant => b"constant",
            KindWord::Type => b"type",
            KindWord::Parameter => b"parameter",
            KindWord::Statement => b"statement",
            KindWord::Position => b"position",
            KindWord::Symbol => b"symbol",
            KindWord::Idexpression => b"idexpression",
        }
    }
}

/// Returns how many bytes must be added, left out or replaced between the word and that for the kind. Linear in the word.
fn distance(alloc: Global, word: &[u8], kind: KindWord) -> Result<usize, NoMemory>
    ensures { IfOk result (λ far. far ≡ spec.distance word.now (spec.kind_text kind)) }
{
    Ok(generic_levenshtein(alloc, word, kind.text())?)
}

/// Returns the kind if its word is at this distance.
fn one_at(
    alloc: Global,
    far: usize,
    word: &[u8],
    kind: KindWord,
) -> Result<Option<KindWord>, NoMemory>
    ensures { IfOk result (λ found. found ≡ spec.one_at far word.now kind) }
{
    if distance(alloc, word, kind)? == far {
        Ok(Some(kind))
    } else {
        Ok(None)
    }
}

/// Returns the first kind whose word is at this distance. Linear in the word.
fn kind_at(alloc: Global, far: usize, word: &[u8]) -> Result<Option<KindWord>, NoMemory>
    ensures { IfOk result (λ found. found ≡ spec.kind_at far word.now) }
{
    let expression = one_at(alloc, far, word, KindWord::Expression)?;
    let identifier = one_at(alloc, far, word, KindWord::Identifier)?;
    let constant = one_at(alloc, far, word, KindWord::Constant)?;
    let ty = one_at(alloc, far, word, KindWord::Type)?;
    let parameter = one_at(alloc, far, word, KindWord::Parameter)?;
    let statement = one_at(alloc, far, word, KindWord::Statement)?;
    let position = one_at(alloc, far, word, KindWord::Position)?;
    let symbol = one_at(alloc, far, word, KindWord::Symbol)?;
    let idexpression = one_at(alloc, far, word, KindWord::Idexpression)?;
    let of_code = expression.or(identifier).or(constant).or(ty).or(parameter);
    Ok(
        of_code
            .or(statement)
            .or(position)
            .or(symbol)
            .or(idexpression),
    )
}

/// Returns the kind whose word this was meant to be: the nearest, at a distance of 1 or 2. A word for a kind was meant to be
/// itself. Linear in the word.
pub fn kind_meant(alloc: Global, word: &[u8]) -> Result<Option<KindWord>, NoMemory>
    ensures { IfOk result (λ found. found ≡ spec.kind_meant word.now) }
{
    let same = kind_at(alloc, 0, word)?;
    if same.is_some() {
        return Ok(None);
    }
    let near = kind_at(alloc, 1, word)?;
    let less_near = kind_at(alloc, 2, word)?;
    Ok(near.or(less_near))
}

/// Whether the word is one of these two.
fn is_either(word: &[u8], one: &[u8], other: &[u8]) -> bool
    ensures { result ≡ spec.is_either word.now one.now other.now }
{
    same_text(word, one) || same_text(word, other)
}

/// Whether Coccinelle has this word for a kind of metavariables that can't be declared here.
pub fn is_unread_kind(word: &[u8]) -> bool
    ensures { result ≡ spec.is_unread_kind word.now }
{
    is_either(word, b"declarer", b"iterator")
        || is_either(word, b"initializer", b"initialiser")
        || is_either(word, b"declaration", b"field")
        || is_either(word, b"function", b"metavariable")
}
