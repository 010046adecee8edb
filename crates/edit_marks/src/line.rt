// The text of a line of plus code.
ghost use Rattle.std.specs.Prelude.{◌≡◌, ◌++◌, length, OnOk, IfOk, Some, None, option_copied};
ghost use Rattle.edit_marks.specs.Blocks.{value_chunk, chunk_of, is_together, left_at, left_after, chunk_text, line_text, last_token, is_meta, text_of_token};

use crate::values::term;
use c_show::{runs_together, show};
use c_terms::{NoMemory, Text, Token, TokenKind, Tree, leaves};
use smpl_patch::{PlusLine, VarDecl};
use smpl_terms::Env;
use std::alloc::Global;

/// What a line has in place of one of its tokens.
#[derive(Drop)]
pub struct Chunk {
    pub text: Text,
    /// Its first token's text, if it has one.
    pub first: Option<Text>,
    /// Its last token's text.
    pub last: Option<Text>,
}

/// Returns the token's text, or the term of a metavariable written out.
pub fn chunk_of(
    alloc: Global,
    decls: &[VarDecl],
    env: &Env,
    token: &Token,
) -> Result<Chunk, NoMemory>
    ensures { IfOk result (λ chunk. chunk ≡ chunk_of decls.now env.now token.now) }
{
    if !is_meta(token.kind) {
        return Ok(Chunk {
            text: token.text.copy(alloc)?,
            first: Some(token.text.copy(alloc)?),
            last: Some(token.text.copy(alloc)?),
        });
    }
    match term(decls, env, token.text.as_bytes()) {
        Some(tree) => value_chunk(alloc, tree),
        None => Ok(Chunk {
            text: Text::from_bytes(alloc, b"")?,
            first: None,
            last: None,
        }),
    }
}

fn value_chunk(alloc: Global, tree: &Tree) -> Result<Chunk, NoMemory>
    ensures { IfOk result (λ chunk. chunk ≡ value_chunk tree.now) }
{
    let text = show(alloc, tree)?;
    let tokens = leaves(alloc, tree)?;
    let tokens = tokens.as_slice();
    let first = copy_text(alloc, tokens.first())?;
    let last = copy_text(alloc, tokens.last())?;
    Ok(Chunk { text, first, last })
}

fn copy_text(alloc: Global, token: Option<&Token>) -> Result<Option<Text>, NoMemory>
    ensures { IfOk result (λ text. text ≡ text_of_token (option_copied token.entry)) }
{
    match token {
        Some(token) => Ok(Some(token.text.copy(alloc)?)),
        None => Ok(None),
    }
}

fn is_meta(kind: TokenKind) -> bool
    ensures { result ≡ is_meta kind }
{
    matches!(kind, TokenKind::Meta(_))
}

/// The last tokens before a place: the one that the next token is directly beside, if any, and the last of all.
#[derive(Drop)]
pub struct Edge {
    pub beside: Option<Text>,
    pub last: Option<Text>,
}

/// Adds the text of a line, without the `lead` blanks that begin every line of its block. Returns the last token of the
/// line, or the last one before it if the line has none.
pub fn put_line(
    alloc: Global,
    decls: &[VarDecl],
    env: &Env,
    lead: usize,
    line: &PlusLine,
    last: Option<Text>,
    out: &mut Vec<u8>,
) -> Result<Option<Text>, NoMemory>
    requires { length line.now.gaps ≡ length line.now.tokens }
    ensures text { OnOk result (out.new.items ≡ out.old.items ++ line_text decls.now env.now lead line.now) }
    ensures last { IfOk result (λ token. token ≡ last_token decls.now env.now last line.now.tokens) }
{
    let mut edge = Edge { beside: None, last };
    let mut lead = lead;
    let tokens = line.tokens.as_slice();
    let gaps = line.gaps.as_slice();
    for i in 0..tokens.len() {
        let gap = gaps[i].as_bytes();
        edge = put_token(
            alloc,
            decls,
            env,
            &gap[lead.min(gap.len())..],
            &tokens[i],
            edge,
            out,
        )?;
        lead = 0;
    }
    Ok(edge.last)
}

/// Adds a token with the blanks before it.
fn put_token(
    alloc: Global,
    decls: &[VarDecl],
    env: &Env,
    gap: &[u8],
    token: &Token,
    edge: Edge,
    out: &mut Vec<u8>,
) -> Result<Edge, NoMemory>
    ensures text { OnOk result (out.new.items ≡ out.old.items
        ++ chunk_text edge.beside gap.now (chunk_of decls.now env.now token.now)) }
    ensures beside { IfOk result (λ after. after.beside ≡
        left_after (left_at edge.beside gap.now) (chunk_of decls.now env.now token.now).last) }
    ensures last { IfOk result (λ after. after.last ≡
        left_after edge.last (chunk_of decls.now env.now token.now).last) }
{
    let Edge { beside, last } = edge;
    let chunk = chunk_of(alloc, decls, env, token)?;
    let beside = put_chunk(alloc, gap, &chunk, beside, out)?;
    Ok(Edge {
        beside,
        last: left_after(last, chunk.last),
    })
}

/// Adds what stands in place of a token, with the blanks before it, after a token that it may be beside. Returns the token that
/// what comes next may be beside.
pub fn put_chunk(
    alloc: Global,
    gap: &[u8],
    chunk: &Chunk,
    beside: Option<Text>,
    out: &mut Vec<u8>,
) -> Result<Option<Text>, NoMemory>
    ensures text { OnOk result (out.new.items ≡ out.old.items ++ chunk_text beside gap.now chunk.now) }
    ensures beside { IfOk result (λ after. after ≡ left_after (left_at beside gap.now) chunk.now.last) }
{
    let beside = left_at(beside, gap);
    out.extend_from_slice(gap)?;
    if is_together(&beside, &chunk.first) {
        out.push(b' ')?;
    }
    out.extend_from_slice(chunk.text.as_bytes())?;
    let own = copy_of(alloc, &chunk.last)?;
    Ok(left_after(beside, own))
}

pub fn copy_of(alloc: Global, text: &Option<Text>) -> Result<Option<Text>, NoMemory>
    ensures { IfOk result (λ copy. copy ≡ text.now) }
{
    match text {
        Some(text) => Ok(Some(text.copy(alloc)?)),
        None => Ok(None),
    }
}

fn left_at(left: Option<Text>, gap: &[u8]) -> Option<Text>
    ensures { result ≡ left_at left gap.now }
{
    if gap.is_empty() { left } else { None }
}

pub fn left_after(left: Option<Text>, last: Option<Text>) -> Option<Text>
    ensures { result ≡ left_after left last }
{
    match last {
        Some(text) => Some(text),
        None => left,
    }
}

fn is_together(left: &Option<Text>, first: &Option<Text>) -> bool
    ensures { result ≡ is_together left.now first.now }
{
    match left {
        None => false,
        Some(left) => match first {
            None => false,
            Some(first) => runs_together(left.as_bytes(), first.as_bytes()),
        },
    }
}
