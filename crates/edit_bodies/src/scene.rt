// The text and its edits, with what the rows of bodies are made of.
ghost use Rattle.edit_bodies.specs.Places.{AreByEdit};

use c_lexer::Lexed;
use c_terms::Token;
use edit_marks::TidiedEdits;
use edit_unparse::{Fallen, Plan};
use sqlite_items::Items;

/// The text, its edits, and where they stand.
#[derive(Drop)]
pub struct Scene<'a> {
    pub lexed: &'a Lexed,
    pub edits: &'a TidiedEdits,
    pub plan: &'a Plan,
    /// What goes with the commas beside which nothing is left.
    pub fallen: &'a Fallen,
    /// The visible tokens of each insert, by the number of its edit and its own there.
    pub inserts: Vec<Items<Items<Token>>>,
    /// The statements of the patterns, by edit: their numbers among those of the edits.
    pub statements: Vec<Items<usize>>,
    ghost by_edit: { AreByEdit edits.now.statements.items statements.items },
}
