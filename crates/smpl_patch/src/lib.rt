//! What semantic patches are made of: rules, bodies, patterns, isomorphisms, witnesses, and the faults of patches.
//!
//! - [`Patch`] has the virtual names and the [`Rule`]s. A rule has what it depends on ([`Dep`]), its [`Mode`], its
//!   declared variables ([`VarDecl`], with what they want of expressions, [`Wanted`]), its body, and the marks, positions
//!   and plus code at the tokens of its patterns ([`PatToken`]).
//! - A body is a list of [`Elem`]s over [`Pattern`]s. A pattern is an atom with its [`Spot`] and its forms.
//! - [`stands`] says whether a variable appears in a pattern, [`used`] whether it appears there or in the plus code there,
//!   and [`is_sure`] whether it has a value wherever the pattern matches. They look only at what is compared at a node:
//!   of a head, and of the tail of `do`, only their own parts ([`is_held`]).
//! - [`Iso`] is an isomorphism. [`Witness`] and [`RuleWitness`] are what a run reports.
//! - [`PatchFault`] is the reason why a patch is not read; [`earlier`] keeps the first of several faults.
//!
//! In `- f(x);` with `expression x`, the variable `x` appears in the only atom and is sure there.
//!
//! Everything here is data. Comparisons and copies recurse once per level of a tree; comparisons take no memory.
//! smpl_lexer and the crates above it read patches.
#![tactic(auto)]

mod copies;
mod elem;
mod equal;
mod fault;
mod held;
mod pattern;
mod reading;
mod rule;
mod sure;
mod wanted;
mod witness;

pub use copies::{copy_decls, copy_pattern_tokens, copy_texts, copy_vars};
pub use elem::{Dots, Elem};
pub use equal::is_equal_pattern;
pub use fault::{PatchFault, earlier, fault_number, fault_place, first_is_least};
pub use held::{is_held, is_held_sure, is_split_into_nodes, is_sure, stands, used};
pub use pattern::{Mark, PatToken, Pattern, PlusBlock, PlusLine, Spot, VarDecl, VarKind};
pub use reading::{declared_as, has_var, is_own, is_statement, is_statement_kind};
pub use rule::{Dep, Iso, Mode, Patch, Rule};
pub use sure::{is_sign, is_sign_tree, is_sure_in};
pub use wanted::{NameWanted, TypeWanted, Wanted, ask_types};
pub use witness::{RuleWitness, Witness};
