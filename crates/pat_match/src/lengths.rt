// Lists of the file that are too long for a pattern's list.
ghost use Rattle.std.specs.Prelude.{◌≡◌, ◌<◌, List, true, false, map, length};
ghost use Rattle.std.specs.List.{list_any};
ghost use Rattle.c_terms.specs.declared.tree.Tree.{out-Tree};
ghost use Rattle.c_terms.specs.Lists.{members};
ghost use Rattle.c_types.specs.Tables.{ItemTypes};
ghost use Rattle.smpl_terms.specs.Environments.{Environment};
ghost use Rattle.smpl_patch.specs.declared.pattern.VarDecl.{VarDecl};
ghost use Rattle.smpl_patch.specs.declared.pattern.PatToken.{PatToken};
ghost use Rattle.pat_match.specs.Runs as runs;
ghost use Rattle.pat_match.specs.Fitting.{leaf_of, piece};

use crate::lists::is_wild;
use c_terms::{Label, Tree, comma};

/// Whether some child of a pattern's list takes any run of members. Takes no memory.
fn has_wild(label: Label, forms: &[Tree]) -> bool
    ensures { result ≡ list_any (λ f. runs.is_wild label (leaf_of (out-Tree f))) forms.now }
{
    forms.iter().any(|form| is_wild(label, form))
}

/// Whether the children have more members than `count`. Stops at the first member beyond that.
fn has_more_members(trees: &[Tree], count: usize) -> bool
    ensures { result ≡ true → count < length (members trees.now) }
{
    let mut left = count;
    for tree in trees {
        match comma(tree) {
            Some(_) => {}
            None => {
                if left == 0 {
                    return true;
                }
                left -= 1;
            }
        }
    }
    false
}

/// Whether the file's list has more members than the pattern's list has children, none of which takes more than one. Linear in
/// the length of the pattern's list, apart from adjacent commas. Takes no memory.
pub fn is_too_long(label: Label, forms: &[Tree], trees: &[Tree]) -> bool
    ensures { result ≡ true → (decls : List VarDecl) (tokens : List PatToken) (types : ItemTypes)
        (env : Environment) → runs.list_fits decls tokens env label (map (piece decls tokens types env) forms.now) trees.now ≡ false }
{
    if has_wild(label, forms) {
        return false;
    }
    has_more_members(trees, forms.len())
}
