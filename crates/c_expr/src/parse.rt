// The parser, which follows the rows.
ghost use Rattle.std.specs.Prelude.{◌≡◌, ◌∷◌, [], IsTrue, IfOk, IfErr};
ghost use Rattle.c_terms.specs.Trees.{levels, levels_of_all};
ghost use Rattle.c_rows.specs.Kinds.{family_of, has_leaf};
ghost use Rattle.c_rows.specs.Seen.{front};
ghost use Rattle.c_rows.specs.Spells.{Spells};
ghost use Rattle.c_rows.specs.Growth.{Operand};
ghost use Rattle.c_expr.specs.Steps.{OnFault, Refuses, before, Sound, Takes, rule_of_kind, goes_on, headed_by, OnlyTree, NoTreeAt, OnlyOperand, NoOperand, NoRun, RunsTo, GrowsBy, NoGrowth, IsBranch, NoBranch, HasLevels};

use crate::ParseFault;
use c_rows::{
    Class, Fork, Kind, Rule, Seen, Symbol, Word, allows, bottom, choose, family_of, fits, front,
    front_typed, has_leaf, head, kind_of, label_of, left, member_kind, own, row, tail, within,
};
use c_terms::Tree;
use sqlite_items::Items;
use std::alloc::Global;

/// Returns the rule if its branches are of the kind.
fn rule_of_kind(kind: Kind, rule: Option<Rule>) -> Option<Rule>
    ensures { result ≡ rule_of_kind kind rule }
{
    match rule {
        None => None,
        Some(rule) => {
            if within(kind_of(rule), kind) {
                Some(rule)
            } else {
                None
            }
        }
    }
}

/// Returns the rule of a tree of the kind that begins with a token of its own, if a token of this class begins one.
pub fn headed(kind: Kind, class: Class) -> Option<Rule>
    ensures { result ≡ headed_by kind class }
{
    rule_of_kind(kind, head(family_of(kind), class))
}

/// Returns the rule by which a tree whose own rule is `root` grows into one of the kind, if there is one.
pub fn goes_on(kind: Kind, root: Option<Rule>, class: Class) -> Option<Rule>
    ensures { result ≡ goes_on kind root class }
{
    let family = family_of(kind);
    let rule = rule_of_kind(kind, tail(family, class))?;
    let limit = left(rule)?;
    let own_kind = match root {
        None => bottom(family),
        Some(last) => kind_of(last),
    };
    if within(own_kind, limit) {
        Some(rule)
    } else {
        None
    }
}

/// A place in a row: what is left of the row, the tokens from there on, and the children read so far.
#[derive(Drop)]
struct Position<'a, 't> {
    row: &'static [Symbol],
    rest: &'a [Seen<'t>],
    children: Items<Tree>,
    /// The number of levels that the children have.
    deepest: u16,
}

/// Reads a token of the word. After it the row continues as `at` says.
fn take_word<'a, 't>(
    alloc: Global,
    most: u16,
    word: Word,
    mut at: Position<'a, 't>,
) -> Result<Position<'a, 't>, ParseFault>
    requires { Sound (Symbol.Word word ∷ at.row.now) at }
    ensures takes { IfOk result (Takes most (Symbol.Word word) at.entry) }
    ensures refused { IfErr result
        (λ e. OnFault e (Refuses most (before (Symbol.Word word) at.entry))) }
{
    if !fits(word, front(at.rest)) {
        return Err(ParseFault::NoTree);
    }
    match at.rest {
        [] => Err(ParseFault::NoTree),
        [seen, ..] => {
            let token = seen.token().copy(alloc)?;
            at.children.push(Tree::Leaf(token))?;
            at.rest = &at.rest[1..];
            Ok(at)
        }
    }
}

/// Continues in the one way of the fork that the front of the tokens allows. Reads nothing.
fn take_way<'a, 't>(
    most: u16,
    fork: Fork,
    mut at: Position<'a, 't>,
) -> Result<Position<'a, 't>, ParseFault>
    requires { Sound (Symbol.Fork fork ∷ at.row.now) at }
    ensures takes { IfOk result (Takes most (Symbol.Fork fork) at.entry) }
    ensures refused { IfErr result
        (λ e. OnFault e (Refuses most (before (Symbol.Fork fork) at.entry))) }
{
    match choose(fork, front(at.rest)) {
        None => Err(ParseFault::NoTree),
        Some(way) => {
            at.row = way;
            Ok(at)
        }
    }
}

/// Reads a tree of the kind. After it the row continues as `at` says.
#[cycle(parse)]
fn take_child<'a, 't>(
    alloc: Global,
    most: u16,
    kind: Kind,
    mut at: Position<'a, 't>,
) -> Result<Position<'a, 't>, ParseFault>
    requires { Sound (Symbol.Child kind ∷ at.row.now) at }
    ensures takes { IfOk result (Takes most (Symbol.Child kind) at.entry) }
    ensures refused { IfErr result
        (λ e. OnFault e (Refuses most (before (Symbol.Child kind) at.entry))) }
{
    let found = parse(alloc, most, kind, at.rest)?;
    at.children.push(found.tree)?;
    at.rest = found.rest;
    at.deepest = at.deepest.max(found.levels);
    Ok(at)
}

/// Reads a member of a call's list: an expression without commas, or a type if there can be no such expression. After it
/// the row continues as `at` says.
#[cycle(parse)]
fn take_argument<'a, 't>(
    alloc: Global,
    most: u16,
    mut at: Position<'a, 't>,
) -> Result<Position<'a, 't>, ParseFault>
    requires { Sound (Symbol.Argument ∷ at.row.now) at }
    ensures takes { IfOk result (Takes most Symbol.Argument at.entry) }
    ensures refused { IfErr result
        (λ e. OnFault e (Refuses most (before Symbol.Argument at.entry))) }
{
    let found = parse(alloc, most, member_kind(front_typed(at.rest)), at.rest)?;
    at.children.push(found.tree)?;
    at.rest = found.rest;
    at.deepest = at.deepest.max(found.levels);
    Ok(at)
}

/// Reads the part that the symbol asks for, and appends it to the children. After it the row continues as `at` says.
#[cycle(parse)]
fn take<'a, 't>(
    alloc: Global,
    most: u16,
    symbol: Symbol,
    at: Position<'a, 't>,
) -> Result<Position<'a, 't>, ParseFault>
    requires { Sound (symbol ∷ at.row.now) at }
    ensures takes { IfOk result (Takes most symbol at.entry) }
    ensures refused { IfErr result (λ e. OnFault e (Refuses most (before symbol at.entry))) }
{
    match symbol {
        Symbol::Word(word) => take_word(alloc, most, word, at),
        Symbol::Child(kind) => take_child(alloc, most, kind, at),
        Symbol::Argument => take_argument(alloc, most, at),
        Symbol::Fork(fork) => take_way(most, fork, at),
    }
}

/// Reads what is left of a row, and appends its parts to the children.
#[cycle(parse)]
fn run<'a, 't>(
    alloc: Global,
    most: u16,
    mut at: Position<'a, 't>,
) -> Result<Position<'a, 't>, ParseFault>
    requires { Sound at.row.now at }
    ensures found { IfOk result
        (λ end. RunsTo most at.entry.row.now at.entry.rest.now at.entry.children end.children
        end.rest.now) }
    ensures deep { IfOk result (λ end. end.deepest ≡ levels_of_all end.children) }
    ensures refused { IfErr result
        (λ e. OnFault e (NoRun most at.entry.row.now at.entry.rest.now)) }
{
    while let [symbol, ..] = at.row {
        at.row = &at.row[1..];
        at = take(alloc, most, *symbol, at)?;
    }
    Ok(at)
}

/// A tree, its rule unless it is a leaf, its levels, and the tokens after it.
#[derive(Drop)]
pub struct Parsed<'a, 't> {
    pub root: Option<Rule>,
    pub tree: Tree,
    pub levels: u16,
    pub rest: &'a [Seen<'t>],
}

/// Returns an empty list of children, with capacity for a short branch of the rule: most branches have as many children as
/// their row has parts.
fn room(alloc: Global, rule: Rule) -> Result<Items<Tree>, ParseFault>
    ensures none { IfOk result (λ children. children ≡ []) }
    ensures fault { IfErr result (λ fault. fault ≡ ParseFault.NoMemory) }
{
    let children = Vec::with_capacity(alloc, row(rule).len())?;
    Ok(Items::from_vec(children))
}

/// Returns the branch of the rule over all that was read, if it is allowed and fits into the levels.
fn finish<'a, 't>(
    most: u16,
    rule: Rule,
    read: Position<'a, 't>,
) -> Result<Parsed<'a, 't>, ParseFault>
    requires { read.deepest ≡ levels_of_all read.children }
    ensures found { IfOk result
        (λ g. IsBranch rule read.entry.children read.entry.rest.now g.root g.tree g.rest.now) }
    ensures levels { IfOk result (λ g. HasLevels g.tree g.levels most) }
    ensures refused { IfErr result
        (λ e. (e ≡ ParseFault.NoTree) × NoBranch most rule read.entry.children) }
{
    if read.deepest >= most || !allows(rule, read.children.as_slice()) {
        return Err(ParseFault::NoTree);
    }
    let label = label_of(rule, read.children.as_slice());
    Ok(Parsed {
        root: Some(rule),
        tree: Tree::Branch(label, read.children),
        levels: read.deepest + 1,
        rest: read.rest,
    })
}

/// Returns the leaf at the front of the tokens, which is by itself a tree of the kind.
fn take_leaf<'a, 't>(
    alloc: Global,
    most: u16,
    kind: Kind,
    rest: &'a [Seen<'t>],
) -> Result<Parsed<'a, 't>, ParseFault>
    requires { IsTrue (has_leaf (family_of kind) (front rest.now)) }
    ensures found { IfOk result (λ g. Operand kind g.root rest.now g.tree g.rest.now) }
    ensures only { IfOk result (λ g. OnlyOperand most kind rest.now g.root g.tree g.rest.now) }
    ensures levels { IfOk result (λ g. HasLevels g.tree g.levels most) }
    ensures refused { IfErr result (λ e. OnFault e (NoOperand most kind rest.now)) }
{
    match rest {
        [] => Err(ParseFault::NoTree),
        [seen, ..] => {
            let token = seen.token().copy(alloc)?;
            Ok(Parsed {
                root: None,
                tree: Tree::Leaf(token),
                levels: 0,
                rest: &rest[1..],
            })
        }
    }
}

/// Returns the first tree from which one of the kind grows: a leaf, or a branch that begins with a token of its own.
#[cycle(parse)]
fn operand<'a, 't>(
    alloc: Global,
    most: u16,
    kind: Kind,
    rest: &'a [Seen<'t>],
) -> Result<Parsed<'a, 't>, ParseFault>
    ensures found { IfOk result (λ g. Operand kind g.root rest.now g.tree g.rest.now) }
    ensures only { IfOk result (λ g. OnlyOperand most kind rest.now g.root g.tree g.rest.now) }
    ensures levels { IfOk result (λ g. HasLevels g.tree g.levels most) }
    ensures refused { IfErr result (λ e. OnFault e (NoOperand most kind rest.now)) }
{
    let class = front(rest);
    if has_leaf(family_of(kind), class) {
        return take_leaf(alloc, most, kind, rest);
    }
    let Some(rule) = headed(kind, class) else {
        return Err(ParseFault::NoTree);
    };
    if most == 0 {
        return Err(ParseFault::NoTree);
    }
    let children = room(alloc, rule)?;
    let start = Position {
        row: own(rule),
        rest,
        children,
        deepest: 0,
    };
    let read = run(alloc, most - 1, start)?;
    finish(most, rule, read)
}

/// Returns the rule's branch of the tree, which has this height, and of what follows it.
#[cycle(parse)]
fn grow<'a, 't>(
    alloc: Global,
    most: u16,
    rule: Rule,
    tree: Tree,
    height: u16,
    rest: &'a [Seen<'t>],
) -> Result<Parsed<'a, 't>, ParseFault>
    requires { height ≡ levels tree }
    ensures found { IfOk result (λ g. GrowsBy most rule tree rest.now g.root g.tree g.rest.now) }
    ensures levels { IfOk result (λ g. HasLevels g.tree g.levels most) }
    ensures refused { IfErr result (λ e. OnFault e (NoGrowth most rule tree rest.now)) }
{
    if height >= most {
        return Err(ParseFault::NoTree);
    }
    let mut children = room(alloc, rule)?;
    children.push(tree)?;
    let begun = Position {
        row: own(rule),
        rest,
        children,
        deepest: height,
    };
    let read = run(alloc, most - 1, begun)?;
    finish(most, rule, read)
}

/// Returns the tree of the kind at the front of the tokens, and the tokens after it.
#[cycle(parse)]
pub fn parse<'a, 't>(
    alloc: Global,
    most: u16,
    kind: Kind,
    rest: &'a [Seen<'t>],
) -> Result<Parsed<'a, 't>, ParseFault>
    ensures found { IfOk result (λ f. Spells kind rest.now f.tree f.rest.now) }
    ensures only { IfOk result (λ f. OnlyTree most kind rest.now f.tree f.rest.now) }
    ensures levels { IfOk result (λ f. HasLevels f.tree f.levels most) }
    ensures refused { IfErr result (λ e. OnFault e (NoTreeAt most kind rest.now)) }
{
    let mut grown = operand(alloc, most, kind, rest)?;
    while let Some(rule) = goes_on(kind, grown.root, front(grown.rest)) {
        grown = grow(alloc, most, rule, grown.tree, grown.levels, grown.rest)?;
    }
    Ok(grown)
}
