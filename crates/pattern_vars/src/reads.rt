// The variables of tokens, trees and patterns.
ghost use Rattle.std.specs.Prelude.{◌≡◌, ◌||◌, ◌&&◌, length, slice_get, OnOk};
ghost use Rattle.std.specs.List.{list_any};
ghost use Rattle.c_terms.specs.Trees.{leaves};
ghost use Rattle.smpl_terms.specs.declared.var.Var.{Var as Variable};
ghost use Rattle.smpl_patch.specs.Held as parts;
ghost use Rattle.smpl_patch.specs.Held.{kept, held};
ghost use Rattle.smpl_patch.specs.Patterns as spec;
ghost use Rattle.pattern_vars.specs.Reads.{has, reads, reads_token, reads_tree};

use crate::{Decls, VarSet};
use c_terms::{Label, NoMemory, Token, TokenKind, Tree};
use smpl_patch::{PatToken, Pattern, PlusBlock, PlusLine, Spot, is_held, is_split_into_nodes};
use smpl_terms::Var;
use std::alloc::Global;

/// Puts in the variable of the metavariable with this name, if one is declared.
fn put_named(alloc: Global, decls: &Decls, name: &[u8], set: &mut VarSet) -> Result<(), NoMemory>
    ensures { OnOk result ((y : Variable) → has set.new y
        ≡ (has set.old y || spec.is_var_of (spec.declared_as decls.now name.now) y)) }
{
    match decls.declared(name) {
        Some(d) => set.put(alloc, &d.var),
        None => Ok(()),
    }
}

fn put_meta(alloc: Global, decls: &Decls, token: &Token, set: &mut VarSet) -> Result<(), NoMemory>
    ensures { OnOk result ((y : Variable) → has set.new y
        ≡ (has set.old y || spec.is_meta_of decls.now token.now token.now.kind y)) }
{
    match token.kind {
        TokenKind::Meta(_) => put_named(alloc, decls, token.text.as_bytes(), set),
        _ => Ok(()),
    }
}

/// Puts these variables in. Takes one look-up for each.
pub fn put_vars(alloc: Global, vars: &[Var], set: &mut VarSet) -> Result<(), NoMemory>
    ensures { OnOk result ((y : Variable) → has set.new y ≡ (has set.old y || has vars.now y)) }
{
    for x in vars {
        set.put(alloc, x)?;
    }
    Ok(())
}

fn put_positions(
    alloc: Global,
    tokens: &[PatToken],
    id: u64,
    set: &mut VarSet,
) -> Result<(), NoMemory>
    ensures { OnOk result ((y : Variable) → has set.new y
        ≡ (has set.old y || spec.is_position_of (slice_get tokens.now id) y)) }
{
    match tokens.get(id as usize) {
        Some(p) => put_vars(alloc, p.positions.as_slice(), set),
        None => Ok(()),
    }
}

/// Puts in the token's variable, and the positions at the token.
pub fn put_own(
    alloc: Global,
    decls: &Decls,
    tokens: &[PatToken],
    token: &Token,
    set: &mut VarSet,
) -> Result<(), NoMemory>
    ensures { OnOk result ((y : Variable) → has set.new y
        ≡ (has set.old y || spec.is_own decls.now tokens.now y token.now)) }
{
    put_meta(alloc, decls, token, set)?;
    put_positions(alloc, tokens, token.id, set)?;
    Ok(())
}

fn put_line(alloc: Global, decls: &Decls, line: &PlusLine, set: &mut VarSet) -> Result<(), NoMemory>
    ensures { OnOk result ((y : Variable) → has set.new y
        ≡ (has set.old y || spec.in_line decls.now y line.now)) }
{
    for token in line.tokens.as_slice() {
        put_meta(alloc, decls, token, set)?;
    }
    Ok(())
}

/// Puts in the variables of plus code. Linear in it if no hashes collide.
pub fn put_block(
    alloc: Global,
    decls: &Decls,
    block: &Option<PlusBlock>,
    set: &mut VarSet,
) -> Result<(), NoMemory>
    ensures { OnOk result ((y : Variable) → has set.new y
        ≡ (has set.old y || spec.in_block decls.now y block.now)) }
{
    match block {
        None => Ok(()),
        Some(b) => {
            for line in b.lines.as_slice() {
                put_line(alloc, decls, line, set)?;
            }
            Ok(())
        }
    }
}

/// Puts in the variables of the plus code that is anchored at the token with this number.
fn put_plus(
    alloc: Global,
    decls: &Decls,
    tokens: &[PatToken],
    id: u64,
    set: &mut VarSet,
) -> Result<(), NoMemory>
    ensures { OnOk result ((y : Variable) → has set.new y
        ≡ (has set.old y || spec.in_plus decls.now (slice_get tokens.now id) y)) }
{
    match tokens.get(id as usize) {
        None => Ok(()),
        Some(p) => {
            put_block(alloc, decls, &p.before, set)?;
            put_block(alloc, decls, &p.after, set)?;
            Ok(())
        }
    }
}

fn put_token(
    alloc: Global,
    decls: &Decls,
    tokens: &[PatToken],
    plus: bool,
    token: &Token,
    set: &mut VarSet,
) -> Result<(), NoMemory>
    ensures { OnOk result ((y : Variable) → has set.new y
        ≡ (has set.old y || reads_token decls.now tokens.now plus y token.now)) }
{
    put_own(alloc, decls, tokens, token, set)?;
    if plus {
        put_plus(alloc, decls, tokens, token.id, set)?;
    }
    Ok(())
}

fn put_tree(
    alloc: Global,
    decls: &Decls,
    tokens: &[PatToken],
    plus: bool,
    tree: &Tree,
    set: &mut VarSet,
) -> Result<(), NoMemory>
    ensures { OnOk result ((y : Variable) → has set.new y
        ≡ (has set.old y || list_any (reads_token decls.now tokens.now plus y) (leaves tree.now))) }
{
    match tree {
        Tree::Leaf(token) => put_token(alloc, decls, tokens, plus, token, set),
        Tree::Branch(_, children) => {
            for child in children.as_slice() {
                put_tree(alloc, decls, tokens, plus, child, set)?;
            }
            Ok(())
        }
    }
}

fn put_where(
    alloc: Global,
    decls: &Decls,
    tokens: &[PatToken],
    plus: bool,
    here: bool,
    tree: &Tree,
    set: &mut VarSet,
) -> Result<(), NoMemory>
    ensures { OnOk result ((y : Variable) → has set.new y
        ≡ (has set.old y || (here && reads_tree decls.now tokens.now plus y tree.now))) }
{
    if here {
        put_tree(alloc, decls, tokens, plus, tree, set)?;
    }
    Ok(())
}

fn put_kept(
    alloc: Global,
    decls: &Decls,
    tokens: &[PatToken],
    plus: bool,
    spot: Spot,
    label: Label,
    trees: &[Tree],
    set: &mut VarSet,
) -> Result<(), NoMemory>
    ensures { OnOk result ((y : Variable) → has set.new y
        ≡ (has set.old y || list_any (reads_tree decls.now tokens.now plus y)
        (kept (parts.is_held spot label (length trees.now)) 0 trees.now))) }
{
    for i in 0..trees.len() {
        let here = is_held(spot, label, trees.len(), i);
        put_where(alloc, decls, tokens, plus, here, &trees[i], set)?;
    }
    Ok(())
}

/// Puts in the variables of the compared parts of a form.
fn put_form(
    alloc: Global,
    decls: &Decls,
    tokens: &[PatToken],
    plus: bool,
    spot: Spot,
    form: &Tree,
    set: &mut VarSet,
) -> Result<(), NoMemory>
    ensures { OnOk result ((y : Variable) → has set.new y
        ≡ (has set.old y || list_any (reads_tree decls.now tokens.now plus y) (held spot form.now))) }
{
    match form {
        Tree::Leaf(_) => put_tree(alloc, decls, tokens, plus, form, set),
        Tree::Branch(label, children) => {
            if is_split_into_nodes(spot, *label) {
                put_kept(
                    alloc,
                    decls,
                    tokens,
                    plus,
                    spot,
                    *label,
                    children.as_slice(),
                    set,
                )
            } else {
                put_tree(alloc, decls, tokens, plus, form, set)
            }
        }
    }
}

/// Puts in the variables that appear in the compared parts of the pattern's first form, and if `plus` is true, those of plus
/// code that is anchored there. Linear in the pattern and that code if no hashes collide. Recurses once per level.
pub fn put_pattern(
    alloc: Global,
    decls: &Decls,
    tokens: &[PatToken],
    plus: bool,
    p: &Pattern,
    set: &mut VarSet,
) -> Result<(), NoMemory>
    ensures { OnOk result ((y : Variable) → has set.new y
        ≡ (has set.old y || reads decls.now tokens.now plus p.now y)) }
{
    match p.forms.as_slice() {
        [form, ..] => put_form(alloc, decls, tokens, plus, p.spot, form, set),
        [] => Ok(()),
    }
}
