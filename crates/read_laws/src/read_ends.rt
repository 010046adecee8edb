//! Bytes spell a patch or have a first fault, they spell isomorphisms or have a first fault, and a patch can be given all
//! its forms or has a first rule with too many.
//!
//! - [`bytes_are_read`]: it is impossible that bytes spell no patch and have no first fault, and the same holds of
//!   isomorphisms.
//! - [`patches_get_their_forms`]: under any isomorphisms, a patch has one with all forms, or a first rule with too many.
//!
//! The functions do nothing.
#![tactic(auto)]

mod laws;

pub use laws::{bytes_are_read, patches_get_their_forms};
