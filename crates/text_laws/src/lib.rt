//! Laws of the texts that the edits of a rule produce: the ids of their tokens, and that a text is cut again into as many
//! tokens as it has ids.
//!
//! - [`ids_stay_apart`], [`ids_stay_few`]: no two tokens of a page have the same id, and there are no more ids than bytes.
//! - [`edits_are_fair`], [`touches_are_sound`]: the edits of witnesses keep what follows Strays, and their texts consist of
//!   blanks and tokens of C.
//! - [`text_keeps_its_tokens`]: the new text, when cut again, has as many tokens as ids.
//!
//! The functions do nothing.
//!
//! Its folders:
//!
//! - `output_laws`: Laws of the texts that any edits produce, and of the values of graphs.
//! - `reading_laws`: Laws of readings: a text with the ids of its tokens has one list of pieces and one of items; and where
//!   the tokens of trees are.
//! - `value_laws`: The values that a rule finds in a reading of a text are places, or terms of tokens of C that are no Strays.
//! - `plus_laws`: The plus code of patches that are read consists of tokens of C and metavariables, with white space
//!   between them.
//! - `token_laws`: What the rules of a patch preserve, from the first reading of a text on, and that a text which they
//!   leave is cut into the tokens whose ids it has.
//! - `again_laws`: The text that a rule leaves is cut again into exactly the kept and the added tokens.
//! - `chain_total`: The rules of a patch over a text come to an end.
#![tactic(auto)]

mod again_laws;
mod chain_total;
mod laws;
mod output_laws;
mod plus_laws;
mod reading_laws;
mod token_laws;
mod value_laws;

pub use again_laws::{new_texts_are_of_their_tokens, patches_leave_their_tokens};
pub use chain_total::{chains_have_an_end, texts_are_read};
pub use laws::{
    edits_are_fair, ids_stay_apart, ids_stay_few, text_keeps_its_tokens, touches_are_sound,
};
pub use output_laws::ids_are_few;
pub use reading_laws::readings_are_one;
