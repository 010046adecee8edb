// The head of a rule.
use c_terms::Text;
use smpl_patch::{Dep, Mode, VarDecl};
use sqlite_items::Items;

/// What precedes a rule's body.
#[derive(Drop)]
pub struct RuleHead {
    /// Empty if the rule has none.
    pub name: Text,
    pub depends: Dep,
    pub mode: Mode,
    pub vars: Items<VarDecl>,
}
