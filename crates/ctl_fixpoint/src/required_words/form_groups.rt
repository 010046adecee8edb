// The forms of a pattern, grouped into runs that need the same word.
ghost use Rattle.std.specs.Prelude.{◌≡◌, ◌≤◌, ◌<◌, true, Some, length, slice_get, IfOk};
ghost use Rattle.c_terms.specs.declared.tree.Tree.{Tree};
ghost use Rattle.ctl_fixpoint.specs.RequiredWords.FormGroups as spec;

use crate::required_words::spell::held_spells;
use crate::required_words::word::is_word_kind;
use c_terms::{NoMemory, Shape, Text, Token, Tree};
use smpl_patch::{Pattern, Spot};
use std::alloc::Global;

/// A pattern with fewer forms than this has no looks: all its forms are tried at each node.
const FEW_FORMS: usize = 8;

/// A run of forms that need the same word.
#[derive(Drop)]
pub struct FormGroup {
    /// The word. If there is none, the run's forms are tried at each node.
    pub word: Option<Text>,
    /// The number of the first form after the run. The run begins where the previous one ends.
    pub end: usize,
}

fn token_word(alloc: Global, token: &Token) -> Result<Option<Text>, NoMemory> {
    if is_word_kind(token.kind) {
        Ok(Some(token.text.copy(alloc)?))
    } else {
        Ok(None)
    }
}

/// Returns the first word that is in no disjunction, as a candidate for a word that the form needs. Recurses once per level.
fn first_word(alloc: Global, form: &Tree) -> Result<Option<Text>, NoMemory> {
    match form {
        Tree::Leaf(token) => token_word(alloc, token),
        Tree::Branch(label, children) => {
            if matches!(label.shape(), Shape::Or) {
                return Ok(None);
            }
            for child in children.as_slice() {
                let found = first_word(alloc, child)?;
                if found.is_some() {
                    return Ok(found);
                }
            }
            Ok(None)
        }
    }
}

/// Whether there is a word and the form needs it.
fn needs_it(word: &Option<Text>, spot: Spot, form: &Tree) -> bool
    ensures { result ≡ true → spec.finds word.now spot form.now ≡ true }
{
    match word {
        Some(text) => held_spells(text.as_bytes(), spot, form),
        None => false,
    }
}

/// Returns a word that the form needs, if one is found.
fn form_word(alloc: Global, spot: Spot, form: &Tree) -> Result<Option<Text>, NoMemory>
    ensures { IfOk result (λ word. spec.finds word spot form.now ≡ true) }
{
    let word = first_word(alloc, form)?;
    if needs_it(&word, spot, form) {
        Ok(word)
    } else {
        Ok(None)
    }
}

/// Returns the end of the run that begins with this form.
fn run_end(word: &Option<Text>, spot: Spot, forms: &[Tree], first: usize) -> usize
    requires within { first < length forms.now }
    requires first { (form : Tree) → slice_get forms.now first ≡ Some form → spec.finds word.now spot form ≡ true }
    ensures later { first < result }
    ensures within { result ≤ length forms.now }
    ensures run { spec.IsRun spot forms.now word.now first result }
{
    for i in first + 1..forms.len() {
        if !needs_it(word, spot, &forms[i]) {
            return i;
        }
    }
    forms.len()
}

/// Returns all forms, run by run.
fn runs_of(alloc: Global, spot: Spot, forms: &[Tree]) -> Result<Vec<FormGroup>, NoMemory>
    ensures { IfOk result (λ form_groups. spec.Covers spot forms.now 0 form_groups.items (length forms.now)) }
{
    let mut form_groups = Vec::new(alloc);
    let mut next = 0;
    // Each round takes at least one form.
    for _n in 0..forms.len() {
        if next == forms.len() {
            return Ok(form_groups);
        }
        let word = form_word(alloc, spot, &forms[next])?;
        let end = run_end(&word, spot, forms, next);
        form_groups.push(FormGroup { word, end })?;
        next = end;
    }
    Ok(form_groups)
}

/// Returns the looks of the pattern, for [`solve_by`](crate::required_words::solve_by): its forms in consecutive runs that need
/// the same word. A pattern with fewer than eight forms has none.
///
/// Each form is searched up to the run's word. A form that lacks the word is searched as a whole, then up to its own first
/// word, and once more for that word. Fails only when out of memory.
pub fn looks_of(alloc: Global, p: &Pattern) -> Result<Vec<FormGroup>, NoMemory>
    ensures { IfOk result (λ form_groups. spec.AreFormGroups p.now form_groups.items) }
{
    let forms = p.forms.as_slice();
    if forms.len() < FEW_FORMS {
        return Ok(Vec::new(alloc));
    }
    runs_of(alloc, p.spot, forms)
}
