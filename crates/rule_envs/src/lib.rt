//! The environments of a file, as the rules of a patch process it: which of them take part in a rule, what the rule is run
//! under, and which environments result.
//!
//! - [`inherited_of`] lists the variables that a rule takes from earlier ones.
//! - [`projections`] chooses the environments that take part and returns their distinct values of those variables, each once.
//! - [`exported`] returns the distinct values of exported variables that some witnesses pass to later rules.
//! - [`next_file_envs`] replaces each environment that got witnesses by its extensions.
//! - [`ids_do_not_count`] is a law, and does nothing: values are compared without the ids of their tokens.
//!
//! Values of two environments are never combined: a projection is a part of one environment, and what is found under it extends
//! only those that have it.
//!
//! Its folders:
//!
//! - `rule_formulas`: What the rules of a patch are run by: the formula of each rule, and the variables that it takes from
//!   earlier rules.
#![tactic(auto)]

mod depends;
mod exports;
mod fault;
mod file_env;
mod inherited;
mod laws;
mod next;
mod rule_formulas;
mod shares;

pub use depends::judge;
pub use exports::exported;
pub use fault::EnvsFault;
pub use file_env::{FileEnv, envs_of, first_file_envs};
pub use inherited::inherited_of;
pub use laws::ids_do_not_count;
pub use next::next_file_envs;
pub use rule_formulas::{Prepared, PreparedRule, exported_variables_are_bound, prepare};
pub use shares::{Projected, projections};
