// The trees that spell a body and the code of its clauses.
ghost use Rattle.std.specs.Prelude.{◌≡◌, List, IfOk, MatchOption};
ghost use Rattle.c_terms.specs.Names.{listed_names};
ghost use Rattle.c_terms.specs.declared.tree.Tree.{Tree as Term};
ghost use Rattle.smpl_body.specs.SmplWhen.Cutting as when;
ghost use Rattle.smpl_body.specs.Spelled.{body_forms, code_forms, IsRead, AreRead};
ghost use Rattle.smpl_body.specs.Bodies.{Spells};
ghost use Rattle.smpl_body.specs.SoFar.{WithCodes, AllSpell};

use crate::fits::fits;
use crate::reading::{Form, read_tokens};
use crate::smpl_when::{Code, Cutting};
use c_expr::ranges_have_one_tree;
use c_terms::{Names, NoMemory, Token, Tree};
use smpl_meta::Placed;
use std::alloc::Global;

fn read_main(alloc: Global, names: &Names, tokens: &[Token]) -> Result<Option<Tree>, NoMemory>
    requires { names.now ≡ listed_names }
    ensures { IfOk result (λ found. MatchOption found ((t : Term) → IsRead body_forms tokens.now t → ⊥)
        (λ t. IsRead body_forms tokens.now t)) }
{
    let forms = [Form::Expression, Form::Statements, Form::Function];
    read_tokens(alloc, &forms, names, tokens)
}

fn read_code(alloc: Global, names: &Names, tokens: &[Token]) -> Result<Option<Tree>, NoMemory>
    requires { names.now ≡ listed_names }
    ensures { IfOk result (λ found. MatchOption found ((t : Term) → IsRead code_forms tokens.now t → ⊥)
        (λ t. IsRead code_forms tokens.now t)) }
{
    let forms = [Form::Expression, Form::Statements];
    read_tokens(alloc, &forms, names, tokens)
}

/// Appends the trees of pieces of code to those before. `None` if a piece has no tree.
fn put_codes(
    alloc: Global,
    names: &Names,
    codes: &[Code],
    trees: Vec<Tree>,
) -> Result<Option<Vec<Tree>>, NoMemory>
    requires { names.now ≡ listed_names }
    ensures { IfOk result (λ found. MatchOption found ((ts : List Term) → AreRead codes.now ts → ⊥)
        (λ all. WithCodes trees.items all.items codes.now)) }
{
    let mut trees = trees;
    for code in codes {
        match read_code(alloc, names, code.tokens.as_slice())? {
            None => return Ok(None),
            Some(tree) => trees.push(tree)?,
        }
    }
    Ok(Some(trees))
}

/// Returns the trees that spell a body and the code of its clauses, the body's first, if there are such trees.
pub(crate) fn spelled(
    alloc: Global,
    placed: &[Placed],
    cut: &Cutting,
) -> Result<Option<Vec<Tree>>, NoMemory>
    requires { cut.now ≡ when.cut placed.now }
    ensures { IfOk result (λ found. MatchOption found
        ((t : Term) (cs : List Term) → Spells placed.now t cs → ⊥)
        (λ all. AllSpell placed.now all.items)) }
{
    if cut.broken {
        return Ok(None);
    }
    let names = Names::listed(alloc)?;
    let body = match read_main(alloc, &names, cut.main.as_slice())? {
        None => return Ok(None),
        Some(tree) => tree,
    };
    let mut trees = Vec::new(alloc);
    trees.push(body)?;
    let trees = match put_codes(alloc, &names, cut.codes.as_slice(), trees)? {
        None => return Ok(None),
        Some(trees) => trees,
    };
    ranges_have_one_tree();
    if fits(alloc, placed, cut, trees.as_slice())? {
        Ok(Some(trees))
    } else {
        Ok(None)
    }
}
