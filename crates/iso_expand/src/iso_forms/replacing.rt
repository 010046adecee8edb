// What isomorphisms make of a list of forms.
ghost use Rattle.c_terms.specs.declared.tree.Tree.{Tree as Form};
ghost use Rattle.std.specs.Prelude.{◌≡◌, ◌≤◌, ◌<◌, [], Some, slice_get, OnOk, IfOk, IfErr, length};
ghost use Rattle.iso_expand.specs.IsoForms.Replacing as by;
ghost use Rattle.iso_expand.specs.IsoForms.Forms as spec;
ghost use Rattle.iso_expand.specs.IsoForms.Forms.{Refused};
ghost use Rattle.iso_expand.specs.IsoForms.Stepped.{Has};

use crate::iso_forms::FormsFault;
use crate::iso_forms::arrows::{lowest, may_become};
use crate::iso_forms::labels::may_grow;
use crate::iso_forms::listed::Listed;
use crate::iso_forms::making::{first_id, made};
use crate::iso_forms::matching::{Bound, matches};
use crate::iso_forms::open::is_open;
use c_terms::{NoMemory, Tree};
use smpl_patch::{Iso, PatToken, VarDecl};
use sqlite_items::Items;
use std::alloc::Global;

/// Returns what the variables of a side stand for at the tree, if it matches and may be replaced.
fn replaced(
    alloc: Global,
    tokens: &[PatToken],
    vars: &[VarDecl],
    side: &Tree,
    tree: &Tree,
) -> Result<Option<Items<Bound>>, NoMemory>
    ensures { IfOk result (λ bound. bound ≡ by.replaced tokens.now vars.now side.now tree.now) }
{
    let mut bound = Items::new(alloc);
    if matches(alloc, vars, side, tree, &mut bound)? && is_open(alloc, tokens, tree)? {
        Ok(Some(bound))
    } else {
        Ok(None)
    }
}

/// Adds the trees made by the sides that side `i` may become.
fn add_targets(
    alloc: Global,
    iso: &Iso,
    bound: &[Bound],
    id: u64,
    i: usize,
    forms: &mut Listed,
    limit: usize,
) -> Result<(), FormsFault>
    requires { Has limit forms.old forms.old.list }
    ensures forms { OnOk result (Has limit forms.new (spec.with_forms forms.old.list (by.targets_from iso.now.both bound.now id i 0 iso.now.sides))) }
    ensures refused { IfErr result (Refused limit (spec.with_forms forms.old.list (by.targets_from iso.now.both bound.now id i 0 iso.now.sides))) }
{
    let low = lowest(iso.both.as_slice(), i);
    for (j, side) in iso.sides.as_slice().iter().enumerate() {
        if may_become(low, i, j) {
            let tree = made(alloc, bound, id, side)?;
            forms.add(alloc, tree, limit)?;
        }
    }
    Ok(())
}

/// Adds what form `k` becomes by the isomorphism.
fn add_form(
    alloc: Global,
    tokens: &[PatToken],
    iso: &Iso,
    k: usize,
    forms: &mut Listed,
    limit: usize,
) -> Result<(), FormsFault>
    requires has { Has limit forms.old forms.old.list }
    requires within { k < length forms.old.list }
    ensures forms { (t : Form) → slice_get forms.old.list k ≡ Some t → OnOk result (Has limit forms.new (spec.with_forms forms.old.list (by.becomes tokens.now iso.now t))) }
    ensures refused { (t : Form) → slice_get forms.old.list k ≡ Some t → IfErr result (Refused limit (spec.with_forms forms.old.list (by.becomes tokens.now iso.now t))) }
{
    for (i, side) in iso.sides.as_slice().iter().enumerate() {
        let tree = &forms.list.as_slice()[k];
        let id = first_id(tree);
        if let Some(bound) = replaced(alloc, tokens, iso.vars.as_slice(), side, tree)? {
            add_targets(alloc, iso, bound.as_slice(), id, i, forms, limit)?;
        }
    }
    Ok(())
}

/// Adds what each form listed so far becomes by the isomorphism.
fn add_iso(
    alloc: Global,
    tokens: &[PatToken],
    iso: &Iso,
    forms: &mut Listed,
    limit: usize,
) -> Result<(), FormsFault>
    requires { Has limit forms.old forms.old.list }
    ensures forms { OnOk result (Has limit forms.new (spec.with_iso tokens.now forms.old.list iso.now)) }
    ensures refused { IfErr result (Refused limit (spec.with_iso tokens.now forms.old.list iso.now)) }
{
    for k in 0..forms.list.len() {
        add_form(alloc, tokens, iso, k, forms, limit)?;
    }
    Ok(())
}

/// Returns the list, and what its trees become by each isomorphism in turn. Trees are spelled only if a label fits.
pub fn with_isos(
    alloc: Global,
    tokens: &[PatToken],
    isos: &[Iso],
    list: Items<Tree>,
    limit: usize,
) -> Result<Items<Tree>, FormsFault>
    requires { length list ≤ limit }
    ensures all { IfOk result (λ all. all ≡ spec.with_isos tokens.now list isos.now) }
    ensures few { IfOk result (λ all. length all ≤ limit) }
    ensures refused { IfErr result (Refused limit (spec.with_isos tokens.now list isos.now)) }
{
    if !may_grow(isos, list.as_slice()) {
        return Ok(list);
    }
    let mut forms = Listed::of(alloc, list, limit)?;
    for iso in isos {
        add_iso(alloc, tokens, iso, &mut forms, limit)?;
    }
    Ok(forms.list)
}
