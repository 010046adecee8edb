// The pairs of an alignment: a token of a form, and the file's tokens that it is aligned with.
ghost use Rattle.std.specs.Prelude.{◌≡◌, ◌++◌, ◌≤◌, ◌∷◌, [], Some, IfOk, OnOk, length};
ghost use Rattle.std.specs.Option.{option_to_list};
ghost use Rattle.c_terms.specs.declared.tree.Tree.{out-Tree};
ghost use Rattle.c_terms.specs.Trees.{leaves};
ghost use Rattle.pat_match.specs.Fitting.{leaf_of};
ghost use Rattle.pat_match.specs.Runs.{comma_tokens, comma_pairs, wild_pairs};
ghost use Rattle.pat_match.specs.Rows.{comma_before};
ghost use Rattle.pat_match.specs.PatPairs.Pairs.{numbers, ids_of};

use crate::parts::{ListMember, run_tree};
use c_terms::{Label, NoMemory, Token, Tree, comma, leaves};
use sqlite_items::Items;
use std::alloc::Global;

/// A token of a form, by its id, and the ids of the file's tokens that it is aligned with, in order. Dots, commas and
/// list variables may be aligned with none.
#[derive(Drop)]
pub struct AlignedToken {
    pub pattern: u64,
    pub files: Items<u64>,
}

fn ids_of(alloc: Global, tree: &Tree) -> Result<Items<u64>, NoMemory>
    ensures { IfOk result (λ ids. ids ≡ ids_of (leaves tree.now)) }
{
    let tokens = leaves(alloc, tree)?;
    let mut ids = Items::new(alloc);
    for token in tokens.as_slice() {
        ids.push(token.id)?;
    }
    Ok(ids)
}

/// Adds the token, aligned with all tokens of the tree.
pub fn put_leaf(
    alloc: Global,
    found: &mut Vec<AlignedToken>,
    token: &Token,
    tree: &Tree,
) -> Result<(), NoMemory>
    ensures { OnOk result (found.new.items ≡ found.old.items
        ++ numbers ((token.now, leaves tree.now) ∷ [])) }
{
    let files = ids_of(alloc, tree)?;
    found.push(AlignedToken {
        pattern: token.id,
        files,
    })?;
    Ok(())
}

fn id_list(alloc: Global, id: Option<u64>) -> Result<Items<u64>, NoMemory>
    ensures { IfOk result (λ ids. ids ≡ option_to_list id) }
{
    let mut ids = Items::new(alloc);
    match id {
        Some(id) => {
            ids.push(id)?;
            Ok(ids)
        }
        None => Ok(ids),
    }
}

/// Returns the id of the comma before the run, if there is one.
fn comma_ids(alloc: Global, run: &[ListMember]) -> Result<Items<u64>, NoMemory>
    ensures { IfOk result (λ ids. ids ≡ ids_of (comma_tokens run.now)) }
{
    match run {
        [] => Ok(Items::new(alloc)),
        [first, ..] => id_list(alloc, first.comma_id()),
    }
}

fn put_comma(
    alloc: Global,
    found: &mut Vec<AlignedToken>,
    token: &Token,
    run: &[ListMember],
) -> Result<(), NoMemory>
    ensures { OnOk result (found.new.items ≡ found.old.items
        ++ numbers (comma_pairs (Some token.now) run.now)) }
{
    let files = comma_ids(alloc, run)?;
    found.push(AlignedToken {
        pattern: token.id,
        files,
    })?;
    Ok(())
}

/// Adds the pattern's comma directly before its i-th child, if there is one, aligned with the comma before the run.
pub fn put_comma_before(
    alloc: Global,
    found: &mut Vec<AlignedToken>,
    forms: &[Tree],
    i: usize,
    run: &[ListMember],
) -> Result<(), NoMemory>
    requires within { i ≤ length forms.now }
    ensures { OnOk result (found.new.items ≡ found.old.items
        ++ numbers (comma_pairs (comma_before forms.now i) run.now)) }
{
    if i == 0 {
        return Ok(());
    }
    match comma(&forms[i - 1]) {
        Some(token) => put_comma(alloc, found, token, run),
        None => Ok(()),
    }
}

/// Adds dots or a list variable, aligned with the run as a whole, the commas between its members included.
pub fn put_run(
    alloc: Global,
    found: &mut Vec<AlignedToken>,
    label: Label,
    form: &Tree,
    run: &[ListMember],
) -> Result<(), NoMemory>
    ensures { OnOk result (found.new.items ≡ found.old.items
        ++ numbers (wild_pairs label (leaf_of (out-Tree form.now)) run.now)) }
{
    match form {
        Tree::Leaf(token) => {
            let whole = run_tree(alloc, label, run)?;
            put_leaf(alloc, found, token, &whole)
        }
        Tree::Branch(_, _) => Ok(()),
    }
}
