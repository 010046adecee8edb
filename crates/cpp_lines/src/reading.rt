// What an item is read as.
use crate::ItemSpan;
use c_terms::Tree;

/// Why an item is skipped.
#[derive(Clone, Copy, Debug, PartialEq, Eq)]
pub enum Why {
    /// It is not too deep, and no tree of at most 1,000 levels spells it.
    NoTree,
    /// More than 200 brackets are open at once.
    TooDeep,
    /// Its graph would have more than 20,000 nodes.
    TooManyNodes,
}

/// What an item is read as.
#[derive(Drop)]
pub enum Item {
    /// A function, a declaration, a macro's item, or a `;`.
    Parsed(Tree),
    /// The visible tokens of an item that is not read, and why.
    Skipped(ItemSpan, Why),
}
