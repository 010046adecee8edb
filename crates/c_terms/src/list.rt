// The members of a list of arguments or parameters, and runs of them.
ghost use Rattle.std.specs.Prelude.{◌≡◌, ◌++◌, IfOk, OnOk};
ghost use Rattle.std.specs.Option.{option_copied};
ghost use Rattle.c_terms.specs.Lists.{comma, comma_kids, is_comma, members, run};

use crate::{Label, NoMemory, Token, TokenKind, Tree, same_text};
use sqlite_items::Items;
use std::alloc::Global;

/// A member of a list, and the comma before it.
#[derive(Drop)]
pub struct Member {
    pub comma: Option<Token>,
    pub tree: Tree,
}

/// Whether the token is `,`. Allocates nothing.
pub fn is_comma(token: &Token) -> bool
    ensures value { result ≡ is_comma token.now }
{
    token.kind == TokenKind::Punct && same_text(token.text.as_bytes(), b",")
}

/// Returns the token of a child of a list, if it is a comma. Allocates nothing.
pub fn comma(tree: &Tree) -> Option<&Token>
    ensures value { option_copied result ≡ comma tree.now }
{
    match tree {
        Tree::Leaf(token) if is_comma(token) => Some(token),
        _ => None,
    }
}

/// Returns copies of the children that are not commas, each with the comma before it: the later one
/// if two commas are side by side. Linear.
pub fn members_of(alloc: Global, children: &[Tree]) -> Result<Items<Member>, NoMemory>
    ensures members { IfOk result (λ found. found ≡ members children.now) }
{
    let mut found = Items::new(alloc);
    let mut before: Option<Token> = None;
    for child in children {
        match comma(child) {
            Some(token) => before = Some(token.copy(alloc)?),
            None => {
                let tree = child.copy(alloc)?;
                found.push(Member {
                    comma: before.take(),
                    tree,
                })?;
            }
        }
    }
    Ok(found)
}

/// Returns the run of these members as a list with this label. The commas between them are part of
/// it; the one before the first is not. Linear.
pub fn run_of(alloc: Global, label: Label, members: &[Member]) -> Result<Tree, NoMemory>
    ensures run { IfOk result (λ tree. tree ≡ run label members.now) }
{
    let mut children = Items::new(alloc);
    for (i, member) in members.iter().enumerate() {
        if i > 0 {
            push_comma(alloc, &member.comma, &mut children)?;
        }
        children.push(member.tree.copy(alloc)?)?;
    }
    Ok(Tree::Branch(label, children))
}

fn push_comma(
    alloc: Global,
    comma: &Option<Token>,
    children: &mut Items<Tree>,
) -> Result<(), NoMemory>
    ensures { OnOk result (children.new ≡ children.old ++ comma_kids comma.now) }
{
    if let Some(token) = comma {
        children.push(Tree::Leaf(token.copy(alloc)?))?;
    }
    Ok(())
}
