// The terms of metavariables.
ghost use Rattle.std.specs.Prelude.{◌≡◌};
ghost use Rattle.std.specs.Option.{option_copied};
ghost use Rattle.edit_marks.specs.Blocks.{term_of, term};

use c_terms::Tree;
use smpl_patch::{VarDecl, declared_as};
use smpl_terms::{Env, Value};

/// Returns the term of the variable with this name, the first that is declared with it.
pub fn term<'a>(decls: &[VarDecl], env: &'a Env, name: &[u8]) -> Option<&'a Tree>
    ensures { option_copied result ≡ term decls.now env.now name.now }
{
    let decl = declared_as(decls, name)?;
    match env.get(&decl.var)? {
        Value::Term(tree) => Some(tree.get()),
        Value::Place(_) => None,
    }
}
