//! Parts of environments: their pairs for some variables, joined with the pairs of others, and lists of different environments.
//!
//! - [`restricted`] keeps the pairs of some variables, and [`joined`] adds those pairs of another environment whose variables
//!   have no value yet. [`is_among`] says whether a variable is one of some.
//! - [`same_env`] and [`env_order`] compare environments without the ids of tokens; [`environments_are_ordered`] is a law.
//! - [`DistinctEnvs`] lists environments, each once, in the order in which they were first added.
//!
//! ```text
//!       restricted   x: 1, y: 2   to y and z              y: 2
//!       joined       x: 1, y: 2   with x: 7, z: 8         x: 1, y: 2, z: 8
//!       env_order    x: 1  <  x: 1, y: 2  <  x: 2  <  y: 1
//! ```
#![tactic(auto)]

mod distinct;
mod key;
mod order;
mod parts;

pub use distinct::{DistinctEnvs, Placed};
pub use order::{env_order, environments_are_ordered};
pub use parts::{is_among, joined, restricted, same_env};
