//! Applies the rules of a patch to the text of a file, one after another.
//!
//! [`apply`] runs the whole chain of [`PatchRules`] over one text. It returns the new text, plain or tidied, the witnesses, the
//! skipped items that are told of and the environments, or the first fault. A text in which each rule lacks a word may be passed
//! over. The prepared form that rules are run from is made once per patch, by `prepare` of rule_envs.
//!
//! ```text
//!       text ─► tokens, items ─► rule 0 ─► rule 1 ─► .. ─► text, witnesses, skipped items, environments
//!                     ▲            │
//!                     └─ new text ─┘   only after a rule that edits and is followed by another
//!
//!       one rule:   environments ─► projections ─► witnesses, item by item ─► edits ─► new text
//!                                   rule_matches      file_witnesses                 rule_edits
//! ```
//!
//! Under a rule with `- a();` and `+ b();` and a second one with `- b();` and `+ c();`, the text `void k(void) { a(); }`
//! becomes `void k(void) { c(); }`: the second rule runs over the text that the first one left.
//!
//! Its folders:
//!
//! - `rule_witnesses`: The witnesses of a rule in one item: the nodes and the values of exported variables under which its
//!   formula holds, each with its forest.
//! - `rule_edits`: Applies the edits of a rule to a text: all of them at once, or none and the first fault.
//! - `file_witnesses`: What a rule finds over the items of one reading of a file: its witnesses under each of its projections,
//!   item by item, and the values of exported variables in them.
//! - `rule_matches`: Runs one rule over one reading of a file, except for its edits: what it runs under, what it finds, and the
//!   environments that result.
//! - `rule_run`: Runs one rule of a patch over one reading of a file, including its edits.
//! - `edit_laws`: Laws of the edits of witnesses that `rule_run` needs. They restate what one module says in the terms of
//!   another.
#![tactic(auto)]

mod answers;
mod chain;
mod edit_laws;
mod file_witnesses;
mod item_texts;
mod laws;
mod note_laws;
mod notes;
mod passing;
mod patch_rules;
mod reading;
mod readings;
mod rule_edits;
mod rule_matches;
mod rule_run;
mod rule_witnesses;
mod rule_words;
mod rules;
mod state;

pub use chain::apply;
pub use edit_laws::{ids_of_values_do_not_count, plain_inserts_are_fair};
pub use laws::{chain_has_one_end, unread_changes_notes_alone};
pub use note_laws::{needed_words_are_held, told_notes_are_some};
pub use patch_rules::PatchRules;
pub use rule_edits::ids_stay_below_next;
pub use rule_run::{FileFault, SkipNote};
pub use rule_witnesses::{choices, ids_make_no_difference};
pub use rule_words::words_of_rules;
pub use state::Applied;
