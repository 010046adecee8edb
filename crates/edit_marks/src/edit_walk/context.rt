// The context of the walk.
use crate::FileTokens;
use crate::edit_walk::nodes::ItemNodes;
use crate::edit_walk::numbers::Numbers;
use cpp_lines::Item;
use smpl_patch::{PatToken, Pattern, VarDecl};

/// What the walk needs of a rule and of a file.
#[derive(Clone, Copy)]
pub struct WalkContext<'a> {
    pub decls: &'a [VarDecl],
    pub tokens: &'a [PatToken],
    /// The patterns of the rule.
    pub patterns: &'a [&'a Pattern],
    /// The numbers of the patterns' atoms.
    pub atoms: &'a Numbers,
    pub items: &'a [Item],
    /// What edits need of the graph of each item.
    pub nodes: &'a [ItemNodes<'a>],
    /// The tokens of the file.
    pub files: &'a FileTokens<'a>,
    /// The ids of the tokens of the file.
    pub ids: &'a Numbers,
}
