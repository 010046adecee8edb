//! Text for measurements: a file of C functions, generated from a seed.
//!
//! [`generate`] generates the functions `f0`, `f1` and so on, with six statements each, chosen by a small pseudo-random number
//! generator. The same seed gives the same text everywhere. With seed 1 the first function is
//!
//! ```text
//! void f0(int a)
//! {
//!     x = p(a);
//!     x = p(a);
//!     x = p(a);
//!     while (a)
//!         h(a);
//!     a = g(a, 9);
//!     a = g(a, 9);
//! }
//! ```
//!
//! Generation fails only when out of memory. Nothing here recurses.
#![tactic(auto)]

mod draws;
mod functions;

pub use functions::generate;
