//! The text that results from applying edits to a text.
//!
//! - [`edited_text`] returns it, with the ids of its tokens, as an [`Edited`].
//! - [`tidied`] returns it so that it can be committed: what a removed token leaves behind goes with it.
//! - [`plan_of`] returns which tokens go then, and where inserts stand ([`Plan`]).
//! - [`fallen_commas`] returns which commas go with the members of lists beside which they stood ([`Fallen`]).
//! - [`OutFault`] says why there is none.
//! - [`plain_texts_are_fair`], [`ids_stay_below`] and [`tidying_takes_blanks_and_commas`] are laws, about inserted texts, about
//!   ids and about tidied texts; the functions do nothing.
//!
//! For example, removing the `-` from `x = a-b;` yields `x = a b;`. Without edits the text is unchanged.
//!
//! The folder `tidy` has what a tidied text needs.
//!
//! Comments and preprocessor lines stay as they are, and so do blanks unless the text is tidied. A space is added only where a
//! token and a piece that was not its neighbour would run together. Cut again, the text has exactly the kept and the added
//! tokens, but for commas that go from a tidied text. It may have up to 16,777,216 bytes. Nothing recurses.
//!
//! This crate doesn't check whether two edits clash: `first_clash` of edit_marks does, and `edits` of edit_marks returns the
//! edits of a rule.
#![tactic(auto)]

mod draft;
mod fault;
mod laws;
mod place;
mod put;
mod run;
mod tidy;

pub use draft::Edited;
pub use fault::OutFault;
pub use laws::{ids_stay_below, plain_texts_are_fair, tidying_takes_blanks_and_commas};
pub use place::edited_text;
pub use tidy::{
    Brace, CommaList, Extent, Fallen, Layout, Placed, Plan, Spot, fallen_commas, plan_of,
    removed_flags, spot_number, tidied,
};
