// The reader that builds no trees: whether a tree begins at a place, and where it ends. It follows the rows as the parser
// does, and keeps what it finds in each bracket, so that this is not read again with what is around the bracket.
ghost use Rattle.std.specs.Prelude.{◌≡◌, ◌∷◌, [], drop, IsTrue, IfOk, IfErr, Some, None};
ghost use Rattle.c_rows.specs.Choice.{row_fine};
ghost use Rattle.c_rows.specs.Kinds.{family_of, has_leaf};
ghost use Rattle.c_rows.specs.Seen.{front};
ghost use Rattle.c_expr.specs.Steps.{OnFault, Refuses, place, NoTreeAt, NoOperand};
ghost use Rattle.c_expr.specs.Recognizers.{Recognized, Opened, Steps, RunsOn, NotRun, Ends, NoEnd, GrowsOn, NotGrown, AreRight};

use crate::ParseFault;
use crate::memo::{Memo, Recognizer};
use crate::parse::{goes_on, headed};
use c_rows::{
    Class, Facts, Fork, Kind, Rule, Seen, Symbol, Word, allows_facts, branch_facts, choose,
    family_of, fits, front, front_typed, has_leaf, leaf_facts, member_kind, own,
};
use std::alloc::Global;

/// Returns the tokens from a place on.
pub fn rest_at<'a, 't>(seen: &'a [Seen<'t>], at: usize) -> &'a [Seen<'t>]
    ensures { result.now ≡ drop at seen.now }
{
    if at < seen.len() { &seen[at..] } else { &[] }
}

/// Whether what is in brackets, or an alternative of a pattern, begins after a token of this class.
fn opens_group(class: Class) -> bool {
    matches!(
        class,
        Class::ParenNest
            | Class::ParenList
            | Class::CastNest
            | Class::CastList
            | Class::LiteralNest
            | Class::LiteralList
            | Class::LeftBracket
            | Class::PatOpen
            | Class::PatOpenOfStatements
            | Class::PatBar
            | Class::PatAmp
    )
}

/// Whether a list in braces, or type words with one, begin with a token of this class.
fn begins_braces(class: Class) -> bool {
    matches!(
        class,
        Class::LeftBrace | Class::StructBody | Class::EnumBody
    )
}

/// Whether what is in brackets begins at this place.
fn begins_group(seen: &[Seen], at: usize) -> bool {
    if begins_braces(front(rest_at(seen, at))) {
        return true;
    }
    at > 0 && opens_group(front(rest_at(seen, at - 1)))
}

/// A place in a row: what is left of the row, the place of the next token, and the facts of the children so far, which are
/// not built.
#[derive(Drop)]
pub struct Spot {
    pub row: &'static [Symbol],
    pub at: usize,
    pub parts: Vec<Facts>,
    /// The number of levels that the children have.
    pub deepest: u16,
}

/// Passes a token of the word. After it the row continues as `spot` says.
fn pass_word(most: u16, seen: &[Seen], word: Word, mut spot: Spot) -> Result<Spot, ParseFault>
    requires { IsTrue (row_fine (Symbol.Word word ∷ spot.row.now)) }
    ensures steps { IfOk result (Steps most seen.now (Symbol.Word word) spot) }
    ensures refused { IfErr result (λ e. OnFault e
        (Refuses most (place (Symbol.Word word ∷ spot.row.now) (drop spot.at seen.now) []))) }
{
    match rest_at(seen, spot.at) {
        [] => Err(ParseFault::NoTree),
        [first, ..] => {
            if !fits(word, first.class()) {
                return Err(ParseFault::NoTree);
            }
            spot.parts.push(leaf_facts(first.token()))?;
            spot.at += 1;
            Ok(spot)
        }
    }
}

/// Continues in the one way of the fork that the front of the tokens allows. Passes nothing.
fn pass_way(most: u16, seen: &[Seen], fork: Fork, mut spot: Spot) -> Result<Spot, ParseFault>
    requires { IsTrue (row_fine (Symbol.Fork fork ∷ spot.row.now)) }
    ensures steps { IfOk result (Steps most seen.now (Symbol.Fork fork) spot) }
    ensures refused { IfErr result (λ e. OnFault e
        (Refuses most (place (Symbol.Fork fork ∷ spot.row.now) (drop spot.at seen.now) []))) }
{
    match choose(fork, front(rest_at(seen, spot.at))) {
        None => Err(ParseFault::NoTree),
        Some(way) => {
            spot.row = way;
            Ok(spot)
        }
    }
}

/// Passes a tree of the kind. After it the row continues as `spot` says.
#[cycle(recognizer)]
fn pass_child(
    alloc: Global,
    memo: &mut Memo,
    seen: &[Seen],
    from: usize,
    most: u16,
    kind: Kind,
    mut spot: Spot,
) -> Result<Spot, ParseFault>
    requires fine { IsTrue (row_fine (Symbol.Child kind ∷ spot.row.now)) }
    requires right { AreRight from seen.now memo.old.entries.items }
    ensures right { AreRight from seen.now memo.new.entries.items }
    ensures steps { IfOk result (Steps most seen.now (Symbol.Child kind) spot) }
    ensures refused { IfErr result (λ e. OnFault e
        (Refuses most (place (Symbol.Child kind ∷ spot.row.now) (drop spot.at seen.now) []))) }
{
    let found = recognizer(alloc, memo, seen, from, most, kind, spot.at)?;
    spot.parts.push(found.facts)?;
    spot.at = found.end;
    spot.deepest = spot.deepest.max(found.levels);
    Ok(spot)
}

/// Passes a member of a call's list. After it the row continues as `spot` says.
#[cycle(recognizer)]
fn pass_argument(
    alloc: Global,
    memo: &mut Memo,
    seen: &[Seen],
    from: usize,
    most: u16,
    mut spot: Spot,
) -> Result<Spot, ParseFault>
    requires fine { IsTrue (row_fine (Symbol.Argument ∷ spot.row.now)) }
    requires right { AreRight from seen.now memo.old.entries.items }
    ensures right { AreRight from seen.now memo.new.entries.items }
    ensures steps { IfOk result (Steps most seen.now Symbol.Argument spot) }
    ensures refused { IfErr result (λ e. OnFault e
        (Refuses most (place (Symbol.Argument ∷ spot.row.now) (drop spot.at seen.now) []))) }
{
    let kind = member_kind(front_typed(rest_at(seen, spot.at)));
    let found = recognizer(alloc, memo, seen, from, most, kind, spot.at)?;
    spot.parts.push(found.facts)?;
    spot.at = found.end;
    spot.deepest = spot.deepest.max(found.levels);
    Ok(spot)
}

/// Passes the part that the symbol asks for. After it the row continues as `spot` says.
#[cycle(recognizer)]
fn pass(
    alloc: Global,
    memo: &mut Memo,
    seen: &[Seen],
    from: usize,
    most: u16,
    symbol: Symbol,
    spot: Spot,
) -> Result<Spot, ParseFault>
    requires fine { IsTrue (row_fine (symbol ∷ spot.row.now)) }
    requires right { AreRight from seen.now memo.old.entries.items }
    ensures right { AreRight from seen.now memo.new.entries.items }
    ensures steps { IfOk result (Steps most seen.now symbol spot) }
    ensures refused { IfErr result (λ e. OnFault e
        (Refuses most (place (symbol ∷ spot.row.now) (drop spot.at seen.now) []))) }
{
    match symbol {
        Symbol::Word(word) => pass_word(most, seen, word, spot),
        Symbol::Child(kind) => pass_child(alloc, memo, seen, from, most, kind, spot),
        Symbol::Argument => pass_argument(alloc, memo, seen, from, most, spot),
        Symbol::Fork(fork) => pass_way(most, seen, fork, spot),
    }
}

/// Passes what is left of a row.
#[cycle(recognizer)]
fn pass_row(
    alloc: Global,
    memo: &mut Memo,
    seen: &[Seen],
    from: usize,
    most: u16,
    mut spot: Spot,
) -> Result<Spot, ParseFault>
    requires fine { IsTrue (row_fine spot.row.now) }
    requires right { AreRight from seen.now memo.old.entries.items }
    ensures right { AreRight from seen.now memo.new.entries.items }
    ensures found { IfOk result (RunsOn most seen.now spot) }
    ensures refused { IfErr result (NotRun most seen.now spot) }
{
    while let [symbol, ..] = spot.row {
        spot.row = &spot.row[1..];
        spot = pass(alloc, memo, seen, from, most, *symbol, spot)?;
    }
    Ok(spot)
}

/// A tree that is not built, with its rule unless it is a leaf.
#[derive(Clone, Copy)]
pub struct Sketch {
    pub root: Option<Rule>,
    pub recognizer: Recognizer,
}

/// Returns the branch of the rule over all that was passed, if it is allowed and fits into the levels.
fn finish(most: u16, rule: Rule, spot: &Spot) -> Result<Sketch, ParseFault>
    ensures found { IfOk result (Ends most rule spot.now) }
    ensures refused { IfErr result (λ e. NoEnd most rule spot.now e) }
{
    let parts = spot.parts.as_slice();
    if spot.deepest >= most {
        return Err(ParseFault::NoTree);
    }
    if !allows_facts(rule, parts) {
        return Err(ParseFault::NoTree);
    }
    Ok(Sketch {
        root: Some(rule),
        recognizer: Recognizer {
            facts: branch_facts(rule, parts),
            levels: spot.deepest + 1,
            end: spot.at,
        },
    })
}

/// Returns the first tree from which one of the kind grows: a leaf, or a branch that begins with a token of its own.
#[cycle(recognizer)]
fn begin(
    alloc: Global,
    memo: &mut Memo,
    seen: &[Seen],
    from: usize,
    most: u16,
    kind: Kind,
    at: usize,
) -> Result<Sketch, ParseFault>
    requires right { AreRight from seen.now memo.old.entries.items }
    ensures right { AreRight from seen.now memo.new.entries.items }
    ensures found { IfOk result (Opened most kind seen.now at) }
    ensures refused { IfErr result (λ e. OnFault e (NoOperand most kind (drop at seen.now))) }
{
    let rest = rest_at(seen, at);
    let class = front(rest);
    if has_leaf(family_of(kind), class) {
        return sketch_leaf(most, kind, seen, at);
    }
    let Some(rule) = headed(kind, class) else {
        return Err(ParseFault::NoTree);
    };
    if most == 0 {
        return Err(ParseFault::NoTree);
    }
    let start = Spot {
        row: own(rule),
        at,
        parts: Vec::new(alloc),
        deepest: 0,
    };
    let spot = pass_row(alloc, memo, seen, from, most - 1, start)?;
    finish(most, rule, &spot)
}

/// Returns the leaf at a place, which is by itself a tree of the kind.
fn sketch_leaf(most: u16, kind: Kind, seen: &[Seen], at: usize) -> Result<Sketch, ParseFault>
    requires { IsTrue (has_leaf (family_of kind) (front (drop at seen.now))) }
    ensures found { IfOk result (Opened most kind seen.now at) }
    ensures refused { IfErr result (λ e. OnFault e (NoOperand most kind (drop at seen.now))) }
{
    match rest_at(seen, at) {
        [] => Err(ParseFault::NoTree),
        [first, ..] => Ok(Sketch {
            root: None,
            recognizer: Recognizer {
                facts: leaf_facts(first.token()),
                levels: 0,
                end: at + 1,
            },
        }),
    }
}

/// Returns the rule's branch of the tree and of what follows it.
#[cycle(recognizer)]
fn grow(
    alloc: Global,
    memo: &mut Memo,
    seen: &[Seen],
    from: usize,
    most: u16,
    rule: Rule,
    first: Recognizer,
) -> Result<Sketch, ParseFault>
    requires right { AreRight from seen.now memo.old.entries.items }
    ensures right { AreRight from seen.now memo.new.entries.items }
    ensures found { IfOk result (GrowsOn most rule seen.now first) }
    ensures refused { IfErr result (NotGrown most rule seen.now first) }
{
    if first.levels >= most {
        return Err(ParseFault::NoTree);
    }
    let mut parts = Vec::new(alloc);
    parts.push(first.facts)?;
    let start = Spot {
        row: own(rule),
        at: first.end,
        parts,
        deepest: first.levels,
    };
    let spot = pass_row(alloc, memo, seen, from, most - 1, start)?;
    finish(most, rule, &spot)
}

/// Returns the tree of the kind that begins at a place.
#[cycle(recognizer)]
fn read(
    alloc: Global,
    memo: &mut Memo,
    seen: &[Seen],
    from: usize,
    most: u16,
    kind: Kind,
    at: usize,
) -> Result<Recognizer, ParseFault>
    requires right { AreRight from seen.now memo.old.entries.items }
    ensures right { AreRight from seen.now memo.new.entries.items }
    ensures found { IfOk result (Recognized most kind seen.now at) }
    ensures refused { IfErr result (λ e. OnFault e (NoTreeAt most kind (drop at seen.now))) }
{
    let mut sketch = begin(alloc, memo, seen, from, most, kind, at)?;
    while let Some(rule) = goes_on(
        kind,
        sketch.root,
        front(rest_at(seen, sketch.recognizer.end)),
    ) {
        sketch = grow(alloc, memo, seen, from, most, rule, sketch.recognizer)?;
    }
    Ok(sketch.recognizer)
}

/// Returns the tree of the kind that begins at a place. Results for what is in brackets at `from` or later are kept, and
/// are not read again.
#[cycle(recognizer)]
pub fn recognizer(
    alloc: Global,
    memo: &mut Memo,
    seen: &[Seen],
    from: usize,
    most: u16,
    kind: Kind,
    at: usize,
) -> Result<Recognizer, ParseFault>
    requires right { AreRight from seen.now memo.old.entries.items }
    ensures right { AreRight from seen.now memo.new.entries.items }
    ensures found { IfOk result (Recognized most kind seen.now at) }
    ensures refused { IfErr result (λ e. OnFault e (NoTreeAt most kind (drop at seen.now))) }
{
    if at < from || !begins_group(seen, at) {
        return read(alloc, memo, seen, from, most, kind, at);
    }
    if let Some(known) = memo.recall(most, kind, at) {
        return match known {
            None => Err(ParseFault::NoTree),
            Some(recognizer) => Ok(recognizer),
        };
    }
    match read(alloc, memo, seen, from, most, kind, at) {
        Ok(recognizer) => {
            memo.keep(most, kind, at, Some(recognizer))?;
            Ok(recognizer)
        }
        Err(ParseFault::NoTree) => {
            memo.keep(most, kind, at, None)?;
            Err(ParseFault::NoTree)
        }
        Err(fault) => Err(fault),
    }
}
