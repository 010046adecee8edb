//! The edit that a match makes: which tokens it removes, and the texts that its plus code inserts.
//!
//! - [`edit_of`] returns the edit of one alignment, under an environment that gives the metavariables their terms. An
//!   alignment has pairs of a pattern token and the file's tokens that it is aligned with ([`Aligned`]).
//! - Its parts: [`removed_tokens`], the places of plus code ([`spots`], [`PlusSpot`]), and [`insert_text`], the text of a
//!   block at its [`Anchor`].
//! - [`FileTokens`] holds the file's tokens by their numbers, each with the blanks that begin its line ([`FileToken`]).
//! - [`have_even_blocks`] tests the precondition of [`edit_of`] on plus code.
//! - [`indent_at`] returns the blanks that begin a line, and [`ends_line`] says after which tokens a new line begins.
//! - [`alignment_has_one_edit`] is a law; the function does nothing.
//!
//! With `+ b();` anchored after a kept `a();` in a line that begins with a tab, the inserted text is a newline, a tab and
//! `b();`. In place of a removed `a();` it is only `b();`.
//!
//! The calls fail only when out of memory. They recurse only to write a term out: once per level.
//!
//! `aligned_tokens` of pat_match finds alignments, [`edits`] walks over witnesses, and [`first_clash`] finds clashes.
//! `edited_text` of edit_unparse makes the new text.
//!
//! Its folders:
//!
//! - `edit_conflict`: Edits of one version of a text, and whether two of them clash.
//! - `edit_walk`: The edits of a rule: for each place that its witnesses touch, what the alignment there removes and
//!   inserts.
//! - `tidy`: The edits of a rule where the text is tidied.
#![tactic(auto)]

mod alignment_edit;
mod block;
mod edit_conflict;
mod edit_walk;
mod even;
mod file_tokens;
mod insert;
mod laws;
mod line;
mod removals;
mod spot;
mod tidy;
mod values;

pub use alignment_edit::edit_of;
pub use edit_conflict::{Act, Clash, Edit, EditList, Insert, Mark, Side, first_clash};
pub use edit_walk::{ItemNodes, edits, witnesses_have_one_list};
pub use even::have_even_blocks;
pub use file_tokens::{FileToken, FileTokens};
pub use insert::{Anchor, ends_line, indent_at, insert_text};
pub use laws::alignment_has_one_edit;
pub use removals::{Aligned, removed_tokens};
pub use spot::{PlusSpot, spots};
pub use tidy::{
    Body, BracketList, LeafRange, Outline, PatternStatement, TidiedEdits, tidied_edits,
    witnesses_have_one_tidied_list,
};
