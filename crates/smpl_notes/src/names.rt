// Plain names of one or two letters that stand as expressions.
ghost use Rattle.std.specs.Prelude.{◌≡◌, ◌++◌, map, [], if◌then◌else◌, IfOk, OnOk};
ghost use Rattle.smpl_notes.specs.Names as spec;

use crate::note::{Found, Slip};
use crate::tokens::is_short_name;
use crate::words::Words;
use c_terms::{Label, NoMemory, Token, Tree};
use smpl_patch::{Pattern, Spot};
use sqlite_items::Items;
use std::alloc::Global;

/// Whether child `i` of a branch stands as an expression, other than what a call calls.
fn may_stand(label: Label, i: usize) -> bool
    ensures { result ≡ spec.may_stand label i }
{
    match label {
        Label::Call => false,
        _ => label.may_hold(i),
    }
}

/// Appends the tree's token, if it is a short name.
fn put_own(alloc: Global, tree: &Tree, found: &mut Items<Token>) -> Result<(), NoMemory>
    ensures { OnOk result (found.new ≡ found.old ++ (spec.short_names tree.now).own) }
{
    if let Tree::Leaf(token) = tree {
        if is_short_name(token) {
            found.push(token.copy(alloc)?)?;
        }
    }
    Ok(())
}

fn put_own_if(
    alloc: Global,
    here: bool,
    tree: &Tree,
    found: &mut Items<Token>,
) -> Result<(), NoMemory>
    ensures { OnOk result (found.new ≡ found.old ++ (if here then (spec.short_names tree.now).own else [])) }
{
    if here {
        put_own(alloc, tree, found)
    } else {
        Ok(())
    }
}

/// Appends the short names inside the tree that stand as expressions.
#[cycle(names)]
fn put_inside(alloc: Global, tree: &Tree, found: &mut Items<Token>) -> Result<(), NoMemory>
    ensures { OnOk result (found.new ≡ found.old ++ (spec.short_names tree.now).inside) }
{
    match tree {
        Tree::Leaf(_) => Ok(()),
        Tree::Branch(label, children) => put_children(alloc, *label, children.as_slice(), found),
    }
}

#[cycle(names)]
fn put_children(
    alloc: Global,
    label: Label,
    children: &[Tree],
    found: &mut Items<Token>,
) -> Result<(), NoMemory>
    ensures { OnOk result (found.new ≡ found.old ++ spec.inside_from label 0 (map spec.short_names children.now)) }
{
    for i in 0..children.len() {
        let child = &children[i];
        put_own_if(alloc, may_stand(label, i), child, found)?;
        put_inside(alloc, child, found)?;
    }
    Ok(())
}

fn put_at(alloc: Global, spot: Spot, form: &Tree, found: &mut Items<Token>) -> Result<(), NoMemory>
    ensures { OnOk result (found.new ≡ found.old ++ spec.own_at spot form.now) }
{
    match spot {
        Spot::Inside => put_own(alloc, form, found),
        Spot::Whole => Ok(()),
        Spot::Tail => Ok(()),
    }
}

fn put_pattern(alloc: Global, pattern: &Pattern, found: &mut Items<Token>) -> Result<(), NoMemory>
    ensures { OnOk result (found.new ≡ found.old ++ spec.names_of_first pattern.now.spot pattern.now.forms) }
{
    match pattern.forms.as_slice() {
        [] => Ok(()),
        [form, ..] => {
            put_at(alloc, pattern.spot, form, found)?;
            put_inside(alloc, form, found)
        }
    }
}

/// Returns the short names that stand as expressions in the patterns, in order. Linear in the patterns.
fn names_of(alloc: Global, patterns: &[&Pattern]) -> Result<Items<Token>, NoMemory>
    ensures { IfOk result (λ found. found ≡ spec.names_of (map (λ p. p.now) patterns.now)) }
{
    let mut found = Items::new(alloc);
    for pattern in patterns {
        put_pattern(alloc, pattern, &mut found)?;
    }
    Ok(found)
}

fn is_known(declared: &Words, seen: &Words, name: &Token) -> bool
    ensures { result ≡ spec.is_known declared.now seen.now name.now.text }
{
    declared.has(name.text.as_bytes()) || seen.has(name.text.as_bytes())
}

/// Appends the slip of a name after those that were seen, if it is new.
fn put_slip(
    alloc: Global,
    declared: &Words,
    seen: &Words,
    name: &Token,
    found: &mut Items<Found>,
) -> Result<(), NoMemory>
    ensures { OnOk result (found.new ≡ found.old ++ spec.slip_of declared.now seen.now name.now) }
{
    if is_known(declared, seen, name) {
        return Ok(());
    }
    found.push(Found {
        token: name.id,
        slip: Slip::PlainName(name.text.copy(alloc)?),
    })?;
    Ok(())
}

fn put_slips(
    alloc: Global,
    declared: &Words,
    names: &[Token],
    found: &mut Items<Found>,
) -> Result<(), NoMemory>
    ensures { OnOk result (found.new ≡ found.old ++ spec.slips_from declared.now [] names.now) }
{
    let mut seen = Words::new(alloc);
    for name in names {
        put_slip(alloc, declared, &seen, name, found)?;
        seen.add(alloc, &name.text)?;
    }
    Ok(())
}

/// Appends a slip for each short name that stands as an expression in the patterns and that no declaration has, where it
/// stands first. Linear in the patterns if no hashes of names collide.
pub fn put_names(
    alloc: Global,
    declared: &Words,
    patterns: &[&Pattern],
    found: &mut Items<Found>,
) -> Result<(), NoMemory>
    ensures { OnOk result (found.new ≡ found.old ++ spec.name_slips declared.now (map (λ p. p.now) patterns.now)) }
{
    let names = names_of(alloc, patterns)?;
    put_slips(alloc, declared, names.as_slice(), found)
}
