// The bodies of rules.
use crate::Pattern;
use sqlite_items::Items;

/// The clauses of dots or of a nest.
#[derive(Drop)]
#[cycle(elem)]
pub struct Dots {
    /// The code of each `when != code`.
    pub whens: Items<Items<Elem>>,
    /// `when any`
    pub any: bool,
    /// `when strict`
    pub strict: bool,
}

/// An element of a body. A sequence is a list of elements.
#[derive(Drop)]
#[cycle(elem)]
pub enum Elem {
    /// A statement without bodies, an expression, or a metavariable for a statement.
    Atom(Pattern),
    /// A statement or function with bodies: its head, its bodies, and the tail of a `do`. In the trees of the head and of the
    /// tail, an empty list of statements replaces each child that has tokens and is not their own.
    Compound(Pattern, Items<Items<Elem>>, Option<Pattern>),
    /// `{ .. }`: the opening brace, the body, and the closing brace.
    Block(Pattern, Items<Elem>, Pattern),
    /// `...`
    Gap(Dots),
    /// `<... ...>`, or `<+... ...+>` if the bool is true.
    Nest(bool, Items<Elem>, Dots),
    /// `\( .. \| .. \)`
    AnyOf(Items<Items<Elem>>),
    /// `\( .. \& .. \)`
    AllOf(Items<Items<Elem>>),
}
