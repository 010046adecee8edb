// What the branch around a tree needs to know of it, kept without the tree.
/// What the branch around a tree needs to know of it. The facts of a row's parts decide whether the row allows them.
#[derive(Clone, Copy)]
pub struct Facts {
    /// Whether the tree may be one of the type words of a type name: it is not a storage word, and defines nothing.
    pub plain: bool,
    /// Whether all its parts may be type words of a type name.
    pub plain_parts: bool,
    /// Whether the tree, as a declarator, has a name at its core.
    pub names: bool,
    /// Whether the tree, as a declarator, has a DFun on the path to its name.
    pub functions: bool,
    /// Whether the tree is a Comma or an Assign.
    pub loose: bool,
    /// Whether the tree is a Block.
    pub block: bool,
}
