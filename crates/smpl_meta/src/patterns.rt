// The tokens of a rule's patterns.
ghost use Rattle.std.specs.Prelude.{◌≡◌, ◌<◌, ◌^◌, [], length, IfOk, map};
ghost use Rattle.std.specs.Option.{option_copied};
ghost use Rattle.smpl_meta.specs.Index.{Indexes, names_of};
ghost use Rattle.smpl_meta.specs.Patterns as spec;

use crate::variables::VarTable;
use c_terms::{MetaKind, NoMemory, Token, TokenKind};
use smpl_lexer::{BodyLine, PatchToken, is_at, is_name};
use smpl_patch::{VarDecl, VarKind};
use smpl_terms::Var;
use sqlite_items::Items;
use std::alloc::Global;

/// A token of a pattern, whose id is its number in the rule, together with its place, the sign and the number of its
/// line, and the positions after it.
#[derive(Drop)]
pub struct Placed {
    pub token: Token,
    pub at: u32,
    pub sign: u8,
    pub line: u32,
    pub positions: Items<Var>,
}

fn meta_of(found: Option<&VarDecl>) -> Option<MetaKind>
    ensures { result ≡ spec.meta_of (option_copied found.entry) }
{
    match found {
        None => None,
        Some(d) => match d.kind {
            VarKind::Meta(kind) => Some(kind),
            VarKind::Position => None,
        },
    }
}

fn declared_meta(vars: &VarTable<'_>, t: &PatchToken) -> Option<MetaKind>
    ensures { result ≡ spec.declared_meta vars.now t.now }
{
    if is_name(t) {
        meta_of(vars.find(t.token.text.as_bytes()))
    } else {
        None
    }
}

fn kind_by(meta: Option<MetaKind>, kind: TokenKind) -> TokenKind
    ensures { result ≡ spec.kind_by meta kind }
{
    match meta {
        None => kind,
        Some(meta) => TokenKind::Meta(meta),
    }
}

/// Returns the token with this id, as a metavariable if its name is declared. Fails only when out of memory.
pub fn made(alloc: Global, vars: &VarTable<'_>, id: u64, t: &PatchToken) -> Result<Token, NoMemory>
    ensures { IfOk result (λ token. token ≡ spec.made vars.now id t.now) }
{
    Ok(Token {
        kind: kind_by(declared_meta(vars, t), t.token.kind),
        text: t.token.text.copy(alloc)?,
        id,
    })
}

/// The tokens of a pattern that have no numbers of their own: each as [`made`] has it, with the id 0. Linear.
pub fn made_all(
    alloc: Global,
    vars: &VarTable<'_>,
    tokens: &[PatchToken],
) -> Result<Items<Token>, NoMemory>
    ensures { IfOk result (λ out. out ≡ map (spec.made vars.now 0) tokens.now) }
{
    let mut out = Items::new(alloc);
    for t in tokens {
        out.push(made(alloc, vars, 0, t)?)?;
    }
    Ok(out)
}

fn copied_position(alloc: Global, found: Option<&VarDecl>) -> Result<Option<Var>, NoMemory>
    ensures { IfOk result (λ v. v ≡ spec.position_of (option_copied found.entry)) }
{
    match found {
        None => Ok(None),
        Some(d) => match d.kind {
            VarKind::Meta(_) => Ok(None),
            VarKind::Position => Ok(Some(d.var.copy(alloc)?)),
        },
    }
}

fn declared_position(
    alloc: Global,
    vars: &VarTable<'_>,
    t: &PatchToken,
) -> Result<Option<Var>, NoMemory>
    ensures { IfOk result (λ v. v ≡ spec.declared_position vars.now t.now) }
{
    if is_name(t) {
        copied_position(alloc, vars.find(t.token.text.as_bytes()))
    } else {
        Ok(None)
    }
}

/// Returns the position of an `@p` after a token, if there is one.
fn at_position(
    alloc: Global,
    vars: &VarTable<'_>,
    out: &[Placed],
    t: &PatchToken,
    n: &PatchToken,
) -> Result<Option<Var>, NoMemory>
    ensures { IfOk result (λ v. v ≡ spec.at_position vars.now out.now t.now n.now) }
{
    match out {
        [] => Ok(None),
        [_, ..] => {
            if is_at(t) {
                declared_position(alloc, vars, n)
            } else {
                Ok(None)
            }
        }
    }
}

/// Attaches the position to the last token.
fn with_position(out: Items<Placed>, v: Var) -> Result<Items<Placed>, NoMemory>
    ensures { IfOk result (λ r. r ≡ spec.with_position v out) }
{
    let mut out = out;
    match out.pop() {
        None => Ok(out),
        Some(last) => {
            let Placed {
                token,
                at,
                sign,
                line,
                mut positions,
            } = last;
            positions.push(v)?;
            out.push(Placed {
                token,
                at,
                sign,
                line,
                positions,
            })?;
            Ok(out)
        }
    }
}

fn put(
    alloc: Global,
    vars: &VarTable<'_>,
    sign: u8,
    line: u32,
    out: Items<Placed>,
    t: &PatchToken,
) -> Result<Items<Placed>, NoMemory>
    ensures { IfOk result (λ r. r ≡ spec.put vars.now sign line out t.now) }
{
    let mut out = out;
    let token = made(alloc, vars, out.len() as u64, t)?;
    out.push(Placed {
        token,
        at: t.at,
        sign,
        line,
        positions: Items::new(alloc),
    })?;
    Ok(out)
}

/// The tokens so far, and the number of tokens taken for the last one.
#[derive(Drop)]
struct Taken {
    out: Items<Placed>,
    width: usize,
}

fn put_two(
    alloc: Global,
    vars: &VarTable<'_>,
    sign: u8,
    line: u32,
    out: Items<Placed>,
    t: &PatchToken,
    position: Option<Var>,
) -> Result<Taken, NoMemory>
    ensures out { IfOk result (λ r. r.out ≡ spec.put_two vars.now sign line out t.now position) }
    ensures width { IfOk result (λ r. r.width ≡ spec.width_of position) }
{
    match position {
        Some(v) => Ok(Taken {
            out: with_position(out, v)?,
            width: 2,
        }),
        None => Ok(Taken {
            out: put(alloc, vars, sign, line, out, t)?,
            width: 1,
        }),
    }
}

fn put_tokens(
    alloc: Global,
    vars: &VarTable<'_>,
    sign: u8,
    line: u32,
    out: Items<Placed>,
    tokens: &[PatchToken],
) -> Result<Items<Placed>, NoMemory>
    ensures { IfOk result (λ r. r ≡ spec.put_tokens vars.now sign line out tokens.now) }
{
    let mut out = out;
    let mut i = 0;
    while i < tokens.len() {
        if i + 1 < tokens.len() {
            let t = &tokens[i];
            let found = at_position(alloc, vars, out.as_slice(), t, &tokens[i + 1])?;
            let taken = put_two(alloc, vars, sign, line, out, t, found)?;
            out = taken.out;
            i += taken.width;
        } else {
            out = put(alloc, vars, sign, line, out, &tokens[i])?;
            i += 1;
        }
    }
    Ok(out)
}

fn put_line(
    alloc: Global,
    vars: &VarTable<'_>,
    line: u32,
    out: Items<Placed>,
    l: &BodyLine,
) -> Result<Items<Placed>, NoMemory>
    ensures { IfOk result (λ r. r ≡ spec.put_line vars.now line out l.now) }
{
    if l.sign == b'+' {
        return Ok(out);
    }
    put_tokens(alloc, vars, l.sign, line, out, l.tokens.as_slice())
}

/// Returns the tokens of a body's patterns, without those of plus lines. Linear if no hashes of names collide. Fails only
/// when out of memory, and nothing is kept then.
pub fn pattern_tokens(
    alloc: Global,
    vars: &[VarDecl],
    body: &[BodyLine],
) -> Result<Items<Placed>, NoMemory>
    requires { length body.now < 2 ^ 32 }
    ensures { IfOk result (λ r. r ≡ spec.pattern_tokens vars.now body.now) }
{
    let table = VarTable::of(alloc, vars)?;
    let mut out = Items::new(alloc);
    let mut line = 0u32;
    for l in body {
        out = put_line(alloc, &table, line, out, l)?;
        line += 1;
    }
    Ok(out)
}
