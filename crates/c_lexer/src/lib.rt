//! Cuts C text into pieces: tokens, blanks, comments and preprocessor lines.
//!
//! - [`lex`] cuts a whole text and returns a [`Lexed`]: the text and its pieces. [`Lexed::piece`]
//!   reads a [`Piece`], and [`Lexed::renumber`] gives the tokens other ids.
//! - [`first_piece`] finds the first piece of a text, and [`parts`] decides whether two texts run
//!   together.
//! - [`every_text_is_cut`], [`cut_once`] and [`loose_pieces_stay`] are laws of cutting, and do
//!   nothing; so are [`space_parts`], [`parted_texts_stay`], [`dots_join`] and [`comment_ends`].
//!   [`number_texts`] and its like say of each kind that the automaton and a definition in C11's
//!   terms allow the same texts.
//!
//! `a+++b //c` gives Name, Punct `++`, Punct `+`, Name, Blank, Comment.
//!
//! The next piece is the longest text that begins at its place and is of a kind (C11 6.4 p4).
//! Nothing here fails on bad C: a quote without an end is a Stray. A text may have up to
//! [`MOST_BYTES`] bytes, 16,777,216. Nothing recurses.
//!
//! Which lines open groups and which words are markers is up to cpp_lines; which words are types is
//! up to c_rows.
#![tactic(auto)]

mod between;
mod bytes;
mod cut;
mod kept;
mod keywords;
mod laws;
mod lexed;
mod next;
mod piece;
mod run;
mod state;
mod step;
mod texts;
mod within;

pub use between::parts;
pub use cut::{LexFault, MOST_BYTES, lex};
pub use laws::{
    comment_ends, cut_once, dots_join, every_text_is_cut, loose_pieces_stay, parted_texts_stay,
    space_parts,
};
pub use lexed::Lexed;
pub use next::first_piece;
pub use piece::{Piece, PieceKind};
pub use state::Kind;
pub use texts::{
    blank_texts, char_texts, comment_texts, keyword_texts, line_texts, name_texts, number_texts,
    punct_texts, str_texts, stray_texts,
};
