//! Laws of reading: no text is read in two ways, has two first faults, or has both, and it is impossible that it has
//! neither.
//!
//! - `smpl_once`: A text of patches has at most one first fault.
//! - `iso_once`: A file of isomorphisms is read in at most one way, and a patch is given its forms under them in at most
//!   one way.
//! - `read_ends`: Bytes spell a patch or have a first fault, they spell isomorphisms or have a first fault, and a patch can
//!   be given all its forms or has a first rule with too many.
//! - `typed_once`: A typed declaration is parted into its specifiers and declarators in one way.
#![tactic(auto)]

mod iso_once;
mod read_ends;
mod smpl_once;
mod typed_once;

pub use iso_once::{isos_are_read_once, patches_are_expanded_once};
pub use read_ends::{bytes_are_read, patches_get_their_forms};
pub use smpl_once::patches_have_one_fault;
pub use typed_once::typed_declarations_are_parted_once;
