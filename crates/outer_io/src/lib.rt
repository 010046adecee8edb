//! The outside world of a run: shelves that files are loaded from and stored on, and sinks that
//! take bytes.
//!
//! - [`Loads`], [`Shelf`] and [`Sink`] are the interfaces that a run uses. Each counts its faults,
//!   and may reveal its content. Code that uses [`Loads`] alone can't store, and every store is
//!   counted.
//! - [`CalmShelf`] and [`CalmSink`] are in memory and never return `Failed`; [`MemShelf`] and
//!   [`MemSink`] fail at the calls whose numbers they are given, so that a test can try each fault
//!   of the outside world. All four report how many calls were made.
//! - [`FileShelf`] is the files of the system, which a store replaces in one step if it can, and
//!   [`StreamSink`] is a stream; [`OutSink`] and [`ErrSink`] are its names for the two standard
//!   ones. They reveal no content, so what the system returns and keeps is trusted.
//!
//! `load("k.c", 4)` on a calm shelf that holds `f();` under `k.c` returns these 4 bytes, and with
//! the limit 3 it returns `TooLong`; `load("x.c", 4)` returns `Absent`.
//!
//! A load, a store, and a put to a sink in memory may run out of memory. The adapters for streams
//! allocate nothing. Nothing here recurses. What the bytes mean is up to other crates.
//!
//! Its folders:
//!
//! - `escaped_names`: Names of files as lines and reports show them.
#![tactic(auto)]

mod calls;
mod calm;
mod disk;
mod escaped_names;
mod file_map;
mod files;
mod mem;
mod over;
mod replace;
mod shelf;
mod sink;
mod streams;
mod version;

pub use calm::{CalmShelf, CalmSink};
pub use disk::Disk;
pub use escaped_names::{escaped_name, names_end_no_line, names_read_back};
pub use files::FileShelf;
pub use mem::{MemShelf, MemSink};
pub use shelf::{Loads, Shelf, ShelfFault};
pub use sink::{PutFault, Sink};
pub use streams::{ErrSink, OutSink, StreamSink};
