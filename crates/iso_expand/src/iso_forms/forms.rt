// The forms of a tree.
ghost use Rattle.std.specs.Prelude.{◌≡◌, ◌≤◌, ◌<◌, [], ◌∷◌, length, IfOk, IfErr};
ghost use Rattle.iso_expand.specs.IsoForms.Forms.{forms, of_choices, Refused};

use crate::iso_forms::FormsFault;
use crate::iso_forms::choices::{branches, grow, no_choice};
use crate::iso_forms::kinds::is_expression;
use crate::iso_forms::replacing::with_isos;
use c_terms::{Label, NoMemory, Tree};
use smpl_patch::{Iso, PatToken};
use sqlite_items::Items;
use std::alloc::Global;

fn leaf_form(alloc: Global, tree: &Tree) -> Result<Items<Tree>, NoMemory>
    ensures { IfOk result (λ forms. forms ≡ tree.now ∷ []) }
{
    let mut forms = Items::new(alloc);
    forms.push(tree.copy(alloc)?)?;
    Ok(forms)
}

/// Returns the branches of the choices, and at an expression what isomorphisms make of them.
fn branch_forms(
    alloc: Global,
    isos: &[Iso],
    tokens: &[PatToken],
    label: Label,
    choices: Vec<Items<Tree>>,
    limit: usize,
) -> Result<Items<Tree>, FormsFault>
    requires { length choices.items ≤ limit }
    ensures all { IfOk result (λ all. all ≡ of_choices tokens.now isos.now label choices.items) }
    ensures few { IfOk result (λ all. length all ≤ limit) }
    ensures refused { IfErr result (Refused limit (of_choices tokens.now isos.now label choices.items)) }
{
    let list = branches(alloc, label, choices)?;
    if is_expression(label) {
        with_isos(alloc, tokens, isos, list, limit)
    } else {
        Ok(list)
    }
}

/// Returns the forms of a pattern's tree. A leaf has itself. A branch has the branches of one form of each child, the choices
/// of the first varying slowest, and at an expression, for each isomorphism in turn, what the forms listed so far become, each
/// unless it is already listed. The tree itself is the first. `tokens` describes the tokens of the pattern.
///
/// - `TooMany`: the tree has more than `limit` forms.
/// - `NoMemory`: out of memory.
///
/// Linear in the children of a branch if no child has a second form; otherwise each choice is copied for each form of such a
/// child except the last. A tree is compared with every side of every isomorphism, and for a side that it matches every other
/// side is visited. Recurses once for each level.
pub fn forms_of(
    alloc: Global,
    isos: &[Iso],
    tokens: &[PatToken],
    tree: &Tree,
    limit: usize,
) -> Result<Items<Tree>, FormsFault>
    requires { 0 < limit }
    ensures forms { IfOk result (λ all. all ≡ forms tokens.now isos.now tree.now) }
    ensures few { IfOk result (λ all. length all ≤ limit) }
    ensures refused { IfErr result (Refused limit (forms tokens.now isos.now tree.now)) }
{
    match tree {
        Tree::Leaf(_) => Ok(leaf_form(alloc, tree)?),
        Tree::Branch(label, children) => {
            let mut choices = no_choice(alloc)?;
            for child in children.as_slice() {
                let ways = forms_of(alloc, isos, tokens, child, limit)?;
                choices = grow(alloc, choices, ways, limit)?;
            }
            branch_forms(alloc, isos, tokens, *label, choices, limit)
        }
    }
}
