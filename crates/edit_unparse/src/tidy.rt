//! The tidied text that results from applying edits to a text.
//!
//! - [`plan_of`] says for each token whether it goes, and where the inserts stand: those at a run of removed tokens stand
//!   before its first token.
//! - [`fallen_commas`] returns the commas of lists that go since nothing is left beside them, and the blanks behind them.
//! - [`tidied`] returns the text, with the braces and without the emptied lines, the blanks within runs, and these commas.
#![tactic(auto)]

mod brackets;
mod bytes;
mod commas;
mod fallen;
mod flags;
mod joints;
mod layout;
mod old;
mod parts;
mod pieces;
mod places;
mod plan;
mod plans;
mod sides;
mod signs;
mod write;

pub use commas::CommaList;
pub use fallen::{Fallen, fallen_commas};
pub use flags::{Extent, removed_flags};
pub use layout::Layout;
pub use parts::Brace;
pub use plan::{Placed, Plan, Spot, spot_number};
pub use plans::plan_of;
pub use write::tidied;
