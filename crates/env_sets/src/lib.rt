//! Sets of environments: which values the variables may have, over all terms and places, in the file or not.
//!
//! - [`Bound`] says that one variable has a value, or has none of some values. [`Entry`] has bounds of some variables, and
//!   stands for every environment that meets them. [`EnvSet`] stands for every environment that one of its entries stands for.
//! - [`meet`], [`join`] and [`complement`] are intersection, union and complement; [`project`] lets one variable change;
//!   [`given`] gives some variables their values; [`denotes`] says whether an environment is in a set.
//! - [`EnvSet::entries`] lists the entries of a set, and [`EnvSet::blocks`] returns them as they are stored: a slice, and the
//!   blocks that follow it, which sets share.
//! - [`StateSets`] keeps a set for each subformula and node.
//! - [`complement_twice`], [`de_morgan`], [`project_a_join`] and [`given_a_meet`] are laws, which no single call shows.
//!
//! The complement of "`x` is 1" is "`x` is not 1"; its meet with "`y` is 2" stands for each environment in which both hold.
//!
//! Values are compared as terms, ids aside. The calls return sets in which entries over a single variable are merged, and
//! without entries that another plainly covers; sets that a caller builds may have such entries. This neither loses nor adds
//! anything: a set is known by what it stands for.
//! [`complement`] recurses once per variable; comparing and listing values recurses once per level of a tree.
#![tactic(auto)]

mod added;
mod algebra;
mod ascending;
mod blocks;
mod bounds;
mod complements;
mod entries;
mod excluded;
mod groups;
mod kept;
mod laws;
mod listed;
mod lists;
mod lone;
mod lookup;
mod marks;
mod parts;
mod removed;
mod runs;
mod same;
mod sets;
mod sharing;
mod states;
mod tally;
mod values;

pub use algebra::{denotes, given, join, meet, project};
pub use bounds::Bound;
pub use complements::complement;
pub use entries::Entry;
pub use excluded::Values;
pub use laws::{complement_twice, de_morgan, given_a_meet, project_a_join};
pub use same::same_set;
pub use sets::EnvSet;
pub use states::{StateRow, StateSets};
