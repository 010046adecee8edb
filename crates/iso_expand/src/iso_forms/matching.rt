// Matching a tree against a side.
ghost use Rattle.std.specs.Prelude.{◌≡◌, map, IfOk};
ghost use Rattle.std.specs.Option.{option_copied};
ghost use Rattle.c_terms.specs.declared.tree.Tree.{out-Tree};
ghost use Rattle.iso_expand.specs.IsoForms.Matching as spec;
ghost use Rattle.iso_expand.specs.IsoForms.Stepped.{Answers};

use crate::iso_forms::kinds::has_kind;
use c_terms::{
    MetaKind, NoMemory, Text, Token, TokenKind, Tree, is_same_token, same_term, same_text,
};
use smpl_patch::VarDecl;
use sqlite_items::Items;
use std::alloc::Global;

/// A variable of a side, and what it stands for.
#[derive(Drop)]
pub struct Bound {
    pub name: Text,
    pub tree: Tree,
}

/// Returns what the variable stands for, if it is bound. Linear in the variables.
pub fn value<'a>(bound: &'a [Bound], name: &[u8]) -> Option<&'a Tree>
    ensures { option_copied result ≡ spec.value bound.now name.now }
{
    for b in bound {
        if same_text(b.name.as_bytes(), name) {
            return Some(&b.tree);
        }
    }
    None
}

fn bind(alloc: Global, name: &Text, tree: &Tree, bound: &mut Items<Bound>) -> Result<bool, NoMemory>
    ensures { IfOk result (λ fits. Answers fits bound.new (spec.bind (spec.value bound.old name.now) name.now tree.now bound.old)) }
{
    if let Some(known) = value(bound.as_slice(), name.as_bytes()) {
        return Ok(same_term(known, tree));
    }
    let name = name.copy(alloc)?;
    let tree = tree.copy(alloc)?;
    bound.push(Bound { name, tree })?;
    Ok(true)
}

fn is_same_leaf(token: &Token, tree: &Tree) -> bool
    ensures { result ≡ spec.is_same_leaf token.now (out-Tree tree.now) }
{
    match tree {
        Tree::Leaf(other) => is_same_token(token, other),
        Tree::Branch(_, _) => false,
    }
}

fn match_variable(
    alloc: Global,
    vars: &[VarDecl],
    kind: MetaKind,
    name: &Text,
    tree: &Tree,
    bound: &mut Items<Bound>,
) -> Result<bool, NoMemory>
    ensures { IfOk result (λ fits. Answers fits bound.new (spec.match_variable vars.now kind name.now tree.now bound.old)) }
{
    if has_kind(vars, name.as_bytes(), kind, tree) {
        bind(alloc, name, tree, bound)
    } else {
        Ok(false)
    }
}

fn match_leaf(
    alloc: Global,
    vars: &[VarDecl],
    token: &Token,
    tree: &Tree,
    bound: &mut Items<Bound>,
) -> Result<bool, NoMemory>
    ensures { IfOk result (λ fits. Answers fits bound.new (spec.match_leaf vars.now token.now.kind token.now tree.now bound.old)) }
{
    match token.kind {
        TokenKind::Meta(kind) => match_variable(alloc, vars, kind, &token.text, tree, bound),
        _ => Ok(is_same_leaf(token, tree)),
    }
}

/// Whether the tree matches the side. If so, what the side's variables stand for is appended to `bound`. Each variable
/// is looked up among those before it. Recurses once for each level of the side.
#[cycle(matching)]
pub fn matches(
    alloc: Global,
    vars: &[VarDecl],
    side: &Tree,
    tree: &Tree,
    bound: &mut Items<Bound>,
) -> Result<bool, NoMemory>
    ensures { IfOk result (λ fits. Answers fits bound.new (spec.matched vars.now side.now tree.now bound.old)) }
{
    match side {
        Tree::Leaf(token) => match_leaf(alloc, vars, token, tree, bound),
        Tree::Branch(l, sides) => match tree {
            Tree::Leaf(_) => Ok(false),
            Tree::Branch(k, trees) => {
                if l.number() != k.number() {
                    return Ok(false);
                }
                all_match(alloc, vars, sides.as_slice(), trees.as_slice(), bound)
            }
        },
    }
}

#[cycle(matching)]
fn all_match(
    alloc: Global,
    vars: &[VarDecl],
    sides: &[Tree],
    trees: &[Tree],
    bound: &mut Items<Bound>,
) -> Result<bool, NoMemory>
    ensures { IfOk result (λ fits. Answers fits bound.new (spec.each (map (spec.matched vars.now) sides.now) trees.now bound.old)) }
{
    if sides.len() != trees.len() {
        return Ok(false);
    }
    for i in 0..sides.len() {
        if !matches(alloc, vars, &sides[i], &trees[i], bound)? {
            return Ok(false);
        }
    }
    Ok(true)
}
