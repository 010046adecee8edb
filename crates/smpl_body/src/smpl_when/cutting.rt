// Splits a body into its own tokens and its clauses.
ghost use Rattle.std.specs.Prelude.{◌≡◌, ◌++◌, IfOk};
ghost use Rattle.smpl_body.specs.SmplWhen.Cutting as spec;

use crate::smpl_when::clauses::Clauses;
use c_terms::{NoMemory, Token};
use smpl_meta::{Placed, is_differs, is_host, is_word};
use sqlite_items::Items;
use std::alloc::Global;

/// The code of a `when !=`.
#[derive(Drop)]
pub struct Code {
    /// The number of the token that has the clause.
    pub host: u64,
    /// Whether that token is in other code.
    pub nested: bool,
    /// Its own tokens, without those of clauses in it.
    pub tokens: Items<Token>,
}

/// The context of the next token.
#[derive(Clone, Copy, Debug, PartialEq, Eq)]
pub enum Where {
    /// It begins no clause.
    Free,
    /// It directly follows the token with this number, or a clause of that token.
    After(u64),
    /// It follows `when`, in a clause of the token with the first number, in the line with the second.
    When(u64, u32),
}

/// Open code, which extends to the end of its line, and the token of the body to which the clauses after it belong.
#[derive(Drop)]
pub struct OpenCode {
    pub line: u32,
    pub back: u64,
    pub code: Code,
}

/// A body, split up to some token.
#[derive(Drop)]
pub struct Cutting {
    /// The tokens outside clauses.
    pub main: Items<Token>,
    /// The pieces of code, in the order in which they begin.
    pub codes: Items<Code>,
    /// The code that is open. `None` once the whole body is split.
    pub inner: Option<OpenCode>,
    /// What the clauses of each token say.
    pub said: Clauses,
    /// The numbers of the words of clauses.
    pub words: Items<u64>,
    /// Whether there is a malformed `when`, which begins no clause.
    pub broken: bool,
    pub next: Where,
}

fn next_of(p: &Placed) -> Where
    ensures { result ≡ spec.next_of p.now }
{
    if is_host(p) {
        Where::After(p.token.id)
    } else {
        Where::Free
    }
}

fn with_token(going: OpenCode, token: Token) -> Result<OpenCode, NoMemory>
    ensures { IfOk result (λ r. r ≡ spec.with_token going token) }
{
    let mut going = going;
    going.code.tokens.push(token)?;
    Ok(going)
}

/// Adds a token outside clauses, or a token of the open code.
fn put(alloc: Global, c: Cutting, p: &Placed) -> Result<Cutting, NoMemory>
    ensures { IfOk result (λ r. r ≡ spec.put c p.now) }
{
    let token = p.token.copy(alloc)?;
    let Cutting {
        mut main,
        codes,
        inner,
        said,
        words,
        broken,
        next: _,
    } = c;
    let inner = match inner {
        None => {
            main.push(token)?;
            None
        }
        Some(open) => Some(with_token(open, token)?),
    };
    Ok(Cutting {
        main,
        codes,
        inner,
        said,
        words,
        broken,
        next: next_of(p),
    })
}

/// Adds a word of a clause.
fn put_word(c: Cutting, p: &Placed, next: Where) -> Result<Cutting, NoMemory>
    ensures { IfOk result (λ r. r ≡ spec.put_word c p.now next) }
{
    let mut c = c;
    c.words.push(p.token.id)?;
    c.next = next;
    Ok(c)
}

fn with_any(c: Cutting, host: u64) -> Cutting
    ensures { result ≡ spec.with_said c (spec.changed spec.say_any host c.said) }
{
    let mut c = c;
    c.said = c.said.with_any(host);
    c
}

fn with_strict(c: Cutting, host: u64) -> Cutting
    ensures { result ≡ spec.with_said c (spec.changed spec.say_strict host c.said) }
{
    let mut c = c;
    c.said = c.said.with_strict(host);
    c
}

fn with_broken(c: Cutting) -> Cutting
    ensures { result ≡ spec.with_broken c }
{
    let mut c = c;
    c.broken = true;
    c
}

/// The pieces of code including the open one, which ends, and the new one.
#[derive(Drop)]
struct NewCode {
    codes: Items<Code>,
    going: OpenCode,
}

/// Opens new code, which takes the rest of the line.
fn opened(
    alloc: Global,
    codes: Items<Code>,
    inner: Option<OpenCode>,
    host: u64,
    line: u32,
) -> Result<NewCode, NoMemory>
    ensures codes { IfOk result (λ r. r.codes ≡ codes ++ spec.open_codes inner) }
    ensures inside { IfOk result (λ r. r.going ≡ spec.opened inner host line) }
{
    let tokens = Items::new(alloc);
    match inner {
        None => {
            let code = Code {
                host,
                nested: false,
                tokens,
            };
            let going = OpenCode {
                line,
                back: host,
                code,
            };
            Ok(NewCode { codes, going })
        }
        Some(outer) => {
            let OpenCode { line, back, code } = outer;
            let mut codes = codes;
            codes.push(code)?;
            let code = Code {
                host,
                nested: true,
                tokens,
            };
            let going = OpenCode { line, back, code };
            Ok(NewCode { codes, going })
        }
    }
}

/// Begins the code after `when !=`.
fn with_code(alloc: Global, c: Cutting, host: u64, line: u32) -> Result<Cutting, NoMemory>
    ensures { IfOk result (λ r. r ≡ spec.with_code c host line) }
{
    let Cutting {
        main,
        codes,
        inner,
        said,
        words,
        broken,
        next: _,
    } = c;
    let NewCode { codes, going } = opened(alloc, codes, inner, host, line)?;
    let said = said.with_code(host, codes.len())?;
    Ok(Cutting {
        main,
        codes,
        inner: Some(going),
        said,
        words,
        broken,
        next: Where::Free,
    })
}

/// Takes a token directly after dots, a nest or a clause.
fn after(alloc: Global, c: Cutting, host: u64, p: &Placed) -> Result<Cutting, NoMemory>
    ensures { IfOk result (λ r. r ≡ spec.after c host p.now) }
{
    if is_word(p, b"when") {
        put_word(c, p, Where::When(host, p.line))
    } else {
        put(alloc, c, p)
    }
}

/// Takes a token directly after `when`.
fn behind_when(
    alloc: Global,
    c: Cutting,
    host: u64,
    line: u32,
    p: &Placed,
) -> Result<Cutting, NoMemory>
    ensures { IfOk result (λ r. r ≡ spec.behind_when c host line p.now) }
{
    if p.line != line {
        after(alloc, with_broken(c), host, p)
    } else if is_word(p, b"any") {
        put_word(with_any(c, host), p, Where::After(host))
    } else if is_word(p, b"strict") {
        put_word(with_strict(c, host), p, Where::After(host))
    } else if is_differs(p) {
        let c = put_word(c, p, Where::Free)?;
        with_code(alloc, c, host, line)
    } else {
        after(alloc, with_broken(c), host, p)
    }
}

fn is_when(next: Where) -> bool
    ensures { result ≡ spec.is_when next }
{
    matches!(next, Where::When(_, _))
}

/// Ends the open code.
fn ended(c: Cutting) -> Result<Cutting, NoMemory>
    ensures { IfOk result (λ r. r ≡ spec.ended_by c.inner c) }
{
    let Cutting {
        main,
        mut codes,
        inner,
        said,
        words,
        broken,
        next,
    } = c;
    match inner {
        None => Ok(Cutting {
            main,
            codes,
            inner: None,
            said,
            words,
            broken,
            next,
        }),
        Some(open) => {
            let OpenCode {
                line: _,
                back,
                code,
            } = open;
            codes.push(code)?;
            Ok(Cutting {
                main,
                codes,
                inner: None,
                said,
                words,
                broken: broken || is_when(next),
                next: Where::After(back),
            })
        }
    }
}

/// Whether no code is open, or the open code continues in this line.
fn goes_on(inner: &Option<OpenCode>, line: u32) -> bool
    ensures { result ≡ spec.goes_on inner.now line }
{
    match inner {
        None => true,
        Some(open) => open.line == line,
    }
}

/// Ends the open code if the token is in another line.
fn turned(c: Cutting, line: u32) -> Result<Cutting, NoMemory>
    ensures { IfOk result (λ r. r ≡ spec.turned c line) }
{
    if goes_on(&c.inner, line) {
        return Ok(c);
    }
    ended(c)
}

fn step(alloc: Global, c: Cutting, p: &Placed) -> Result<Cutting, NoMemory>
    ensures { IfOk result (λ r. r ≡ spec.step c p.now) }
{
    let c = turned(c, p.line)?;
    match c.next {
        Where::Free => put(alloc, c, p),
        Where::After(host) => after(alloc, c, host, p),
        Where::When(host, line) => behind_when(alloc, c, host, line, p),
    }
}

/// Ends the tokens.
fn finished(c: Cutting) -> Result<Cutting, NoMemory>
    ensures { IfOk result (λ r. r ≡ spec.finished c) }
{
    let c = ended(c)?;
    if is_when(c.next) {
        return Ok(with_broken(c));
    }
    Ok(c)
}

/// Splits a body, given by its pattern tokens, into its own tokens and its clauses. Linear.
pub fn cut(alloc: Global, placed: &[Placed]) -> Result<Cutting, NoMemory>
    ensures { IfOk result (λ c. c ≡ spec.cut placed.now) }
{
    let mut c = Cutting {
        main: Items::new(alloc),
        codes: Items::new(alloc),
        inner: None,
        said: Clauses::none(alloc, placed)?,
        words: Items::new(alloc),
        broken: false,
        next: Where::Free,
    };
    for p in placed {
        c = step(alloc, c, p)?;
    }
    finished(c)
}
