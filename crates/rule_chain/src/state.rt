// The state of the chain, and its result.
use crate::rule_run::{FileState, SkipNote};
use c_file::CFile;
use smpl_patch::RuleWitness;
use smpl_terms::Env;
use sqlite_items::Items;

/// The result of a patch for one file.
#[derive(Drop)]
pub struct Applied {
    /// The text after the last rule.
    pub bytes: Vec<u8>,
    /// The witnesses of the rules, rule by rule.
    pub witnesses: Items<RuleWitness>,
    /// The items that were skipped and are told of, reading by reading.
    pub skipped: Items<SkipNote>,
    /// The environments after the last rule.
    pub envs: Items<Env>,
}

/// The state of the chain just after a reading of the text.
#[derive(Drop)]
pub struct Reached {
    pub bytes: Vec<u8>,
    pub file: CFile,
    /// An id such that neither it nor a larger one has been used in the file.
    pub next: u64,
    /// The number of the reading.
    pub reading: u32,
    pub findings: FileState,
    /// How many tokens the text that was loaded has: their ids are those below.
    pub loaded: u64,
    pub skipped: Items<SkipNote>,
    /// How many rules are done.
    pub done: usize,
}

/// The outcome of running the rules over one reading.
#[derive(Drop)]
pub enum Step {
    /// No rule is left.
    Ended(Applied),
    /// The text was read again.
    On(Reached),
}
