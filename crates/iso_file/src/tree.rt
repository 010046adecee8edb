// The trees of sides.
ghost use Rattle.std.specs.Prelude.{◌≡◌, IfOk};
ghost use Rattle.c_terms.specs.Names.{listed_names};
ghost use Rattle.iso_file.specs.Isos.{IsSide, AreSides};
ghost use Rattle.iso_file.specs.Stepped.{Decides, Tells};

use c_expr::{ParseFault, parse_expr};
use c_terms::{Names, NoMemory, Tree};
use smpl_lexer::PatchToken;
use smpl_meta::{VarTable, made_all};
use sqlite_items::Items;
use std::alloc::Global;

fn answered(answer: Result<Tree, ParseFault>) -> Result<Option<Tree>, NoMemory>
    ensures { IfOk result (λ found. Tells answer found) }
{
    match answer {
        Ok(tree) => Ok(Some(tree)),
        Err(ParseFault::NoMemory) => Err(NoMemory),
        Err(_) => Ok(None),
    }
}

/// Returns the tree of a side, if it is an expression.
fn tree_of(
    alloc: Global,
    names: &Names,
    vars: &VarTable<'_>,
    side: &[PatchToken],
) -> Result<Option<Tree>, NoMemory>
    requires { names.now ≡ listed_names }
    ensures { IfOk result (λ tree. Decides (IsSide vars.now side.now) tree) }
{
    let tokens = made_all(alloc, vars, side)?;
    let tokens = tokens.as_slice();
    answered(parse_expr(alloc, tokens, names, 0, tokens.len()))
}

/// Returns the trees of sides, if each is an expression. Costs what parsing costs.
pub fn trees_of(
    alloc: Global,
    vars: &VarTable<'_>,
    sides: &[Items<PatchToken>],
) -> Result<Option<Items<Tree>>, NoMemory>
    ensures { IfOk result (λ trees. Decides (AreSides vars.now sides.now) trees) }
{
    let names = Names::listed(alloc)?;
    let mut trees = Items::new(alloc);
    for side in sides {
        match tree_of(alloc, &names, vars, side.as_slice())? {
            None => return Ok(None),
            Some(tree) => trees.push(tree)?,
        }
    }
    Ok(Some(trees))
}
