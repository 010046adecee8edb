//! The effects of a run, one act at a time: a run loads, stores, prints and reports.
//!
//! - [`load`], [`store`], [`print`] and [`report`] do one act each. If an act fails, its line is put on the error output, and
//!   [`Stopped`] says which [`Status`] the run ends with.
//! - An [`Outside`] is what a run works on: a shelf, an output and an error output.
//! - [`line_of`], [`cannot_read`], [`cannot_write`] and [`cannot_print`] return the texts of lines.
//!
//! The contracts are about acts, what the shelf and the two outputs reveal after them, and the counts of faults. The contract
//! of a run combines them: this many acts were done, and then the next one broke.
//!
//! A failed load of `k.c` puts `spatch: k.c: cannot read` on the error output, and the run ends with status 5.
//!
//! Nothing here recurses. A line takes memory for its text; the acts themselves take what the shelf takes. spatch_run decides
//! which acts a run does, and in which order.
#![tactic(auto)]

mod acts;
mod lines;
mod places;
mod status;

pub use acts::{Loaded, load, print, report, store};
pub use lines::{cannot_print, cannot_read, cannot_write, line_of};
pub use places::Outside;
pub use status::{Status, Stopped};
