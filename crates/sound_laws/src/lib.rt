//! Laws of soundness: patches that are read are sound, and remain so when their patterns are given their forms.
//!
//! - `smpl_leaves`: The law that no token of a pattern is lost when a body is read.
//! - `smpl_formed`: Laws of the elements of bodies: their shape, their number, and the tokens of their patterns.
//! - `smpl_sound`: The parts of soundness that are proved of patches that are read, as `smpl_patch` defines soundness.
//! - `smpl_all_sound`: Patches that are read are sound, as `smpl_patch` defines it.
//! - `iso_laws`: Patches remain sound when their patterns are given their forms.
//! - `iso_wellformed`: Isomorphisms that are read keep sound patches sound.
#![tactic(auto)]

mod iso_laws;
mod iso_wellformed;
mod smpl_all_sound;
mod smpl_formed;
mod smpl_leaves;
mod smpl_sound;

pub use iso_wellformed::read_isomorphisms_are_fine;
pub use smpl_all_sound::spelled_patches_are_sound;
pub use smpl_leaves::no_token_is_lost;
pub use smpl_sound::patches_are_sound;
