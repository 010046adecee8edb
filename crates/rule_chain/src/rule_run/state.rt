// What the rules of a patch leave of a file, apart from its text.
use cpp_lines::Why;
use rule_envs::FileEnv;
use smpl_patch::RuleWitness;
use sqlite_items::Items;

/// An item that a reading of the file skipped, and why.
#[derive(Clone, Copy, Debug, PartialEq, Eq)]
pub struct SkipNote {
    pub reading: u32,
    pub item: u32,
    pub why: Why,
    /// The id of the first of its visible tokens that was in the text that was loaded, if one was.
    pub token: Option<u64>,
}

/// The environments so far, and what was found.
#[derive(Drop)]
pub struct FileState {
    pub file_envs: Items<FileEnv>,
    /// The rules that have had a witness.
    pub had: Items<u32>,
    pub found: Items<RuleWitness>,
}
