// The lines of a file that have tokens.
ghost use Rattle.std.specs.Prelude.{◌≡◌, ◌+◌, ◌≤◌, ◌++◌, ◌∷◌, [], length, IfOk};
ghost use Rattle.iso_file.specs.Lines as spec;
ghost use Rattle.iso_file.specs.Stepped as stepped;
ghost use Rattle.iso_file.specs.Lines.{AreLinesOf, filled};
ghost use Rattle.smpl_lexer.specs.Tokens as tokens;

use c_lexer::{Kind, first_piece};
use c_terms::{NoMemory, Text, Token, TokenKind};
use smpl_lexer::PatchToken;
use sqlite_items::Items;
use std::alloc::Global;

/// Returns the kind of token that a piece is, or `None` if it isn't one. A preprocessor line counts as a token that no
/// form has.
fn token_kind(kind: Kind) -> Option<TokenKind>
    ensures { result ≡ spec.token_kind kind }
{
    match kind {
        Kind::Name => Some(TokenKind::Name),
        Kind::Keyword => Some(TokenKind::Keyword),
        Kind::Number => Some(TokenKind::Number),
        Kind::Char => Some(TokenKind::Char),
        Kind::Str => Some(TokenKind::Str),
        Kind::Punct => Some(TokenKind::Punct),
        Kind::Stray => Some(TokenKind::Stray),
        Kind::Line => Some(TokenKind::Stray),
        Kind::Blank => None,
        Kind::Comment => None,
    }
}

fn made(alloc: Global, kind: TokenKind, text: &[u8], at: u32) -> Result<PatchToken, NoMemory>
    ensures { IfOk result (λ t. t ≡ tokens.made kind text.now at) }
{
    let text = Text::from_bytes(alloc, text)?;
    Ok(PatchToken {
        token: Token { kind, text, id: 0 },
        at,
    })
}

/// The lines so far, and the tokens of the current line.
#[derive(Drop)]
pub struct Cutting {
    pub lines: Items<Items<PatchToken>>,
    pub tokens: Items<PatchToken>,
}

/// Ends the current line.
fn ended(alloc: Global, cutting: Cutting) -> Result<Cutting, NoMemory>
    ensures lines { IfOk result (λ c. c.lines ≡ cutting.lines ++ filled (cutting.tokens ∷ [])) }
    ensures tokens { IfOk result (λ c. c.tokens ≡ []) }
{
    let Cutting { mut lines, tokens } = cutting;
    if !tokens.is_empty() {
        lines.push(tokens)?;
    }
    Ok(Cutting {
        lines,
        tokens: Items::new(alloc),
    })
}

/// Adds a piece at a place.
fn with_piece(
    alloc: Global,
    cutting: Cutting,
    kind: Kind,
    text: &[u8],
    at: u32,
) -> Result<Cutting, NoMemory>
    ensures { IfOk result (λ c. c ≡ stepped.with_piece (spec.token_kind kind) text.now at cutting) }
{
    match token_kind(kind) {
        Some(kind) => {
            let Cutting { lines, mut tokens } = cutting;
            tokens.push(made(alloc, kind, text, at)?)?;
            Ok(Cutting { lines, tokens })
        }
        None => {
            if text.contains(&b'\n') {
                ended(alloc, cutting)
            } else {
                Ok(cutting)
            }
        }
    }
}

/// Returns the lines that have tokens. Takes linear time.
pub fn lines_of(alloc: Global, bytes: &[u8]) -> Result<Items<Items<PatchToken>>, NoMemory>
    requires { length bytes.now ≤ 1048576 }
    ensures { IfOk result (λ lines. AreLinesOf bytes.now lines) }
{
    let mut cutting = Cutting {
        lines: Items::new(alloc),
        tokens: Items::new(alloc),
    };
    let mut start = 0;
    while start < bytes.len() {
        let (kind, len) = first_piece(&bytes[start..]);
        let text = &bytes[start..start + len];
        cutting = with_piece(alloc, cutting, kind, text, start as u32)?;
        start += len;
    }
    let cutting = ended(alloc, cutting)?;
    Ok(cutting.lines)
}
