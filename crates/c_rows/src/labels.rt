// The labels of branches, as their parts determine them.
ghost use Rattle.std.specs.Prelude.{◌≡◌, codes};
ghost use Rattle.std.specs.Str.{bytes_eq};
ghost use Rattle.c_terms.specs.declared.tree.Tree.{out-Tree};
ghost use Rattle.c_rows.specs.Labels as labels;
ghost use Rattle.c_rows.specs.Rows as rows;

use crate::{Rule, production_of};
use c_terms::{Label, Tree};

/// How a branch is labelled: always with the same label, or depending on its parts.
#[derive(Clone, Copy)]
pub enum Naming {
    /// With this label
    Always(Label),
    /// PatOr or PatAnd, by the sign between its branches
    PatBySign,
    /// At or AtRange
    AtByRange,
    /// If or IfElse
    IfByElse,
    /// Case or CaseRange
    CaseByRange,
    /// For or ForDecl, by what is in its brackets
    ForByDecl,
    /// Decl or FunDef
    DeclByBlock,
    /// MacroItem or MacroFun
    MacroByBlock,
}

fn is_leaf_of(tree: &Tree, text: &[u8]) -> bool
    ensures { result ≡ labels.text_is text.now (out-Tree tree.now) }
{
    match tree {
        Tree::Leaf(token) => token.text.as_bytes() == text,
        Tree::Branch(_, _) => false,
    }
}

/// Branches of a pattern are a PatOr if `\|` separates them, and a PatAnd if `\&` does.
fn branches_label(children: &[Tree]) -> Label
    ensures { result ≡ labels.branches_label children.now }
{
    match children {
        [_, _, sign, ..] => {
            if is_leaf_of(sign, b"\\|") {
                Label::PatOr
            } else {
                Label::PatAnd
            }
        }
        _ => Label::PatAnd,
    }
}

/// `[a]` is an At, `[a ... b]` an AtRange.
fn at_label(children: &[Tree]) -> Label
    ensures { result ≡ labels.at_label children.now }
{
    match children {
        [_, _, _] => Label::At,
        _ => Label::AtRange,
    }
}

/// With an `else`, an If is an IfElse.
fn if_label(children: &[Tree]) -> Label
    ensures { result ≡ labels.if_label children.now }
{
    match children {
        [_, _, _, _, _] => Label::If,
        _ => Label::IfElse,
    }
}

/// `case a :` is a Case, `case a ... b :` a CaseRange.
fn case_label(children: &[Tree]) -> Label
    ensures { result ≡ labels.case_label children.now }
{
    match children {
        [_, _, _] => Label::Case,
        _ => Label::CaseRange,
    }
}

/// Whether the tree is a declaration.
fn is_decl(tree: &Tree) -> bool
    ensures { result ≡ labels.labelled labels.is_decl_label (out-Tree tree.now) }
{
    match tree {
        Tree::Leaf(_) => false,
        Tree::Branch(label, _) => matches!(label, Label::Decl),
    }
}

/// With a declaration in its brackets, a For is a ForDecl.
fn for_label(children: &[Tree]) -> Label
    ensures { result ≡ labels.for_label children.now }
{
    match children {
        [_, _, first, ..] => {
            if is_decl(first) {
                Label::ForDecl
            } else {
                Label::For
            }
        }
        _ => Label::For,
    }
}

/// Whether the tree is a statement in braces.
pub fn is_block(tree: &Tree) -> bool
    ensures value { result ≡ labels.labelled labels.is_block_label (out-Tree tree.now) }
{
    match tree {
        Tree::Leaf(_) => false,
        Tree::Branch(label, _) => matches!(label, Label::Block),
    }
}

/// Type words, a declarator and a Block are a FunDef; anything else after type words is a Decl.
fn external_label(children: &[Tree]) -> Label
    ensures { result ≡ labels.external_label children.now }
{
    match children {
        [_, _, last] => {
            if is_block(last) {
                Label::FunDef
            } else {
                Label::Decl
            }
        }
        _ => Label::Decl,
    }
}

/// Whether no child is a Block.
fn is_blockless(children: &[Tree]) -> bool
    ensures { result ≡ labels.is_blockless children.now }
{
    children.iter().all(|child| !is_block(child))
}

/// With a Block, a macro's item is a MacroFun.
fn macro_label(children: &[Tree]) -> Label
    ensures { result ≡ labels.macro_label children.now }
{
    if is_blockless(children) {
        Label::MacroItem
    } else {
        Label::MacroFun
    }
}

/// The label of a branch with these children that is named in this way.
fn named(naming: Naming, children: &[Tree]) -> Label
    ensures { result ≡ labels.named naming children.now }
{
    match naming {
        Naming::Always(label) => label,
        Naming::PatBySign => branches_label(children),
        Naming::AtByRange => at_label(children),
        Naming::IfByElse => if_label(children),
        Naming::CaseByRange => case_label(children),
        Naming::ForByDecl => for_label(children),
        Naming::DeclByBlock => external_label(children),
        Naming::MacroByBlock => macro_label(children),
    }
}

/// Returns the label of a branch of the rule with these children.
pub fn label_of(rule: Rule, children: &[Tree]) -> Label
    ensures value { result ≡ rows.label_of rule children.now }
{
    named(production_of(rule).naming, children)
}
