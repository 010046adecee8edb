// The piece of a rule's code that isn't spelled.
ghost use Rattle.std.specs.Prelude.{◌≡◌, ◌<◌, ◌^◌, length, IfOk};
ghost use Rattle.c_terms.specs.Names.{listed_names};
ghost use Rattle.smpl_lexer.specs.Texts.{IsSmall};
ghost use Rattle.smpl_places.specs.Pieces.{pieces_of};
ghost use Rattle.smpl_places.specs.FaultPlaces as places;
ghost use Rattle.smpl_places.specs.Unspelled as spec;

use crate::pieces::{Piece, pieces_of};
use crate::rule::is_no_memory;
use c_expr::{ParseFault, parse_kind};
use c_rows::Kind;
use c_terms::{Names, NoMemory, Token};
use smpl_lexer::{PatchText, RuleText, lex_patch, patch_is_read_once};
use smpl_meta::{Earlier, Placed, heads_are_read_once, pattern_tokens, read_headers};
use sqlite_items::Items;
use std::alloc::Global;

/// Whether the tokens are statements.
fn is_spelled(alloc: Global, names: &Names, tokens: &[Token]) -> Result<bool, NoMemory>
    requires { names.now ≡ listed_names }
    ensures { IfOk result (λ spelled. spec.Tells spelled tokens.now) }
{
    match parse_kind(alloc, Kind::StmtList, tokens, names, 0, tokens.len()) {
        Ok(_) => Ok(true),
        Err(ParseFault::NoTree) => Ok(false),
        Err(ParseFault::TooDeep) => Ok(false),
        Err(ParseFault::NoMemory) => Err(NoMemory),
    }
}

/// Returns where the first of the pieces begins that isn't statements, or `all` if each is.
fn first_unspelled(alloc: Global, pieces: &[Piece], all: u32) -> Result<u32, NoMemory>
    ensures { IfOk result (λ at. spec.IsFirstUnspelled pieces.now all at) }
{
    let names = Names::listed(alloc)?;
    for piece in pieces {
        if !is_spelled(alloc, &names, piece.tokens.as_slice())? {
            return Ok(piece.at);
        }
    }
    Ok(all)
}

/// Returns the number of the first rule that doesn't end before this byte.
fn rule_around(rules: &[RuleText], at: u32) -> usize
    ensures { result ≡ spec.rule_around rules.now at }
{
    rules.iter().take_while(|r| r.end < at).count()
}

/// Returns the tokens of the patterns of the rule around this byte.
fn tokens_around(
    alloc: Global,
    text: &PatchText,
    heads: &Earlier,
    at: u32,
) -> Result<Items<Placed>, NoMemory>
    requires { IsSmall text.now }
    ensures { IfOk result (λ placed. placed ≡ spec.tokens_around text.now heads.now.heads at) }
{
    let rules = text.rules.as_slice();
    let rule = rule_around(rules, at);
    let r = match rules.get(rule) {
        None => return Ok(Items::new(alloc)),
        Some(r) => r,
    };
    match heads.head(rule) {
        None => Ok(Items::new(alloc)),
        Some(head) => pattern_tokens(alloc, head.vars.as_slice(), r.body.as_slice()),
    }
}

/// Returns where the code around this byte isn't spelled, given the text and the heads of its rules.
fn code_in(alloc: Global, text: &PatchText, heads: &Earlier, at: u32) -> Result<u32, NoMemory>
    requires { IsSmall text.now }
    ensures { IfOk result (λ place. spec.IsFirstUnspelled (pieces_of (spec.tokens_around text.now heads.now.heads at)) at place) }
{
    let placed = tokens_around(alloc, text, heads, at)?;
    let pieces = pieces_of(alloc, placed.as_slice())?;
    first_unspelled(alloc, pieces.as_slice(), at)
}

/// Returns where the code around this byte isn't spelled: at the first of its pieces that isn't statements, or at this byte.
pub fn code_at(alloc: Global, bytes: &[u8], at: u32) -> Result<Option<u32>, NoMemory>
    ensures { IfOk result (λ found. places.CodeAt bytes.now at found) }
{
    // Laws: do nothing. Bytes with a fault spell no text, and headers with a fault have no heads.
    patch_is_read_once();
    heads_are_read_once();
    let text = match lex_patch(alloc, bytes) {
        Ok(text) => text,
        Err(fault) => {
            if is_no_memory(&fault) {
                return Err(NoMemory);
            }
            return Ok(Some(at));
        }
    };
    match read_headers(alloc, &text) {
        Ok(heads) => Ok(Some(code_in(alloc, &text, &heads, at)?)),
        Err(fault) => {
            if is_no_memory(&fault) {
                return Err(NoMemory);
            }
            Ok(Some(at))
        }
    }
}
