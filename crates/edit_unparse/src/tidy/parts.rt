// The parts of the new text: what is left of old pieces, and the pieces of inserts and of braces.
use c_lexer::Kind;
use c_terms::Text;

/// A brace, with the blanks before it.
#[derive(Drop)]
pub struct Brace {
    /// The token at whose place it stands, and on which side.
    pub token: u32,
    pub after: bool,
    /// How many of the inserts there stand before it.
    pub inserts: usize,
    pub text: Text,
}

/// Where a new piece comes from: the numbers of its edit and of its insert there, and its offset in the text.
#[derive(Clone, Copy, Debug, PartialEq, Eq)]
pub struct Origin {
    pub edit: usize,
    pub insert: usize,
    pub offset: usize,
}

/// A piece of an insert or of a brace.
#[derive(Drop)]
pub struct NewPiece {
    pub kind: Kind,
    pub text: Text,
    /// Where it comes from, if it is of an insert.
    pub origin: Option<Origin>,
}

/// A part of the new text.
#[derive(Drop)]
pub enum TextPart {
    /// The old piece with this number.
    Old(u32),
    /// What is left of the blank with this number.
    Cut(u32, Vec<u8>),
    /// A new piece.
    New(NewPiece),
}
