//! What the words of a command line ask for.
//!
//! - [`utf8_words`] converts the words to text, and [`order_of`] parses them: it returns an [`Order`], or `None` if they are no
//!   command.
//! - [`word_fault`] says why words are no command: it returns the first [`WordFault`], or `None` if they are one.
//!
//! The words `--sp-file p --in-place a.c b.c` ask for the patch `p` to be applied to two files, each of which is stored again
//! if it changes.
//!
//! `clap` parses the options, as a simple command. This crate then checks values and combinations: empty values, malformed
//! values, and options that don't go together are refused.
//!
//! Its folders:
//!
//! - `flag_laws`: Words that differ only in `--check` and `--quiet` ask for the same, but for these.
//! - `job_laws`: Words that differ only in their jobs ask for the same.
//! - `unread_laws`: Words that differ only in `--unread` ask for the same, but for this.
#![tactic(auto)]

mod fault;
mod faults;
mod flag_laws;
mod job_laws;
mod lines;
mod option_name;
mod options;
mod order;
mod unread_laws;
mod values;
mod walk;
mod word;
mod words;

pub use fault::{Need, WordFault};
pub use faults::{faults_are_all, text_fault, word_fault};
pub use flag_laws::flags_change_modes;
pub use job_laws::jobs_leave_orders;
pub use option_name::OptionName;
pub use order::{Mode, Order, PatchOrder, Saying, Target};
pub use unread_laws::unread_changes_targets;
pub use words::{order_of, utf8_words};
