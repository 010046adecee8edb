// What a declaration declares.
use smpl_lexer::PatchToken;
use smpl_patch::{VarKind, Wanted};
use sqlite_items::Items;

/// The kind of a declaration.
#[derive(Clone, Copy, Debug, PartialEq, Eq)]
pub enum DeclKind {
    Var(VarKind),
    /// `symbol`: a name that stands for itself.
    Symbol,
}

/// `x`, or `r.x`.
#[derive(Drop)]
pub struct Named {
    pub from: Option<PatchToken>,
    pub name: PatchToken,
}

/// `x`, `r.x`, `x != {y, z}`, `*x`, or a declarator with a name.
#[derive(Drop)]
pub struct Item {
    pub kind: DeclKind,
    pub named: Named,
    pub nots: Items<Named>,
    /// What an expression must be.
    pub wanted: Wanted,
}
