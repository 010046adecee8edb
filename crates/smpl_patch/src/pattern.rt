// Patterns, the marks, positions and plus code at their tokens, and declared variables.
use crate::Wanted;
use c_terms::{MetaKind, Text, Token, Tree};
use smpl_terms::Var;
use sqlite_items::Items;

/// What a declared name stands for.
#[derive(Clone, Copy, Debug, PartialEq, Eq)]
pub enum VarKind {
    /// A metavariable.
    Meta(MetaKind),
    /// `position`
    Position,
}

/// A variable that a rule declares, or inherits from an earlier rule.
#[derive(Drop)]
pub struct VarDecl {
    pub var: Var,
    pub kind: VarKind,
    pub inherited: bool,
    /// The names that an identifier must not be.
    pub not_names: Items<Text>,
    /// The positions of earlier rules that a position must not be.
    pub not_places: Items<Var>,
    /// What an expression must be.
    pub wanted: Wanted,
}

/// The sign at the start of a token's line.
#[derive(Clone, Copy, Debug, PartialEq, Eq)]
pub enum Mark {
    /// None.
    Context,
    /// `-`
    Minus,
    /// `*`
    Star,
}

/// A line of plus code, without its comments.
#[derive(Drop)]
pub struct PlusLine {
    /// The number of blanks before the line's first token.
    pub lead: u32,
    pub tokens: Items<Token>,
    /// The blanks directly before each token.
    pub gaps: Items<Text>,
}

/// A longest run of plus lines with no token of a pattern between them.
#[derive(Drop)]
pub struct PlusBlock {
    /// Whether its lines begin with `++`. What they put at one place then does not clash.
    pub many: bool,
    pub lines: Items<PlusLine>,
}

/// What belongs to a token of a pattern: its mark, the positions after it, and the plus code that is anchored at it.
#[derive(Drop)]
pub struct PatToken {
    pub mark: Mark,
    pub positions: Items<Var>,
    pub before: Option<PlusBlock>,
    pub after: Option<PlusBlock>,
}

/// Which trees at a node a pattern is compared with.
#[derive(Clone, Copy, Debug, PartialEq, Eq)]
pub enum Spot {
    /// The statement or item that begins at the node; if it is a head, only the head's own tokens.
    Whole,
    /// The expressions in the node's own tokens.
    Inside,
    /// The tail of a `do`.
    Tail,
}

/// A pattern that is compared at one node: its number in the rule, and its forms under isomorphisms. The first form is the
/// one that is written. A token's id is its number among the rule's pattern tokens.
#[derive(Drop)]
pub struct Pattern {
    pub atom: u32,
    pub spot: Spot,
    pub forms: Items<Tree>,
}
