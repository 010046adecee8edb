//! Applies the edits of a rule to a text: all of them at once, or none and the first fault.
//!
//! - [`text_after_edits`] takes the witnesses of a rule over one reading of a text. It returns the new text with the ids of its
//!   tokens if one of the edits isn't empty, and nothing if no edit changes anything. Tokens that stay keep their ids, and new
//!   tokens get ids counted up from one that was never used.
//! - [`tidied_text_after_edits`] does the same, and tidies the new text.
//! - [`ids_stay_below_next`] is a law and does nothing: ids stay below the next one, which never decreases.
#![tactic(auto)]

mod fault;
mod laws;
mod nodes;
mod texts;
mod tidied;

pub use fault::EditFault;
pub use laws::ids_stay_below_next;
pub use texts::{NewText, text_after_edits};
pub use tidied::tidied_text_after_edits;
