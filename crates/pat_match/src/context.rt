// What the patterns of a rule are read with, and one form of a pattern.
use c_terms::Tree;
use c_types::KnownTypes;
use smpl_patch::{PatToken, Pattern, VarDecl};

/// The declarations of a rule, the tokens of its patterns, and the types that are known of the expressions of the item that
/// they are matched against. A token of a form has its entry at its id.
#[derive(Clone, Copy)]
pub struct PatternContext<'p> {
    pub decls: &'p [VarDecl],
    pub tokens: &'p [PatToken],
    pub types: &'p KnownTypes<'p>,
}

/// A form of a pattern: its number, and its tree, which is that of the pattern's form of this number.
#[derive(Clone, Copy)]
pub struct PatternForm<'p> {
    /// The pattern that this is a form of.
    pub pattern: &'p Pattern,
    /// The form's place among the pattern's forms, from 0.
    pub number: usize,
    /// The tree of that form.
    pub tree: &'p Tree,
}
