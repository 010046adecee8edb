// The variables of a block.
ghost use Rattle.std.specs.Prelude.{◌≡◌, [], true, IfOk};
ghost use Rattle.smpl_lexer.specs.Texts.{OrNoMemory};
ghost use Rattle.smpl_meta.specs.Decls.{IsDeclFault};
ghost use Rattle.iso_file.specs.Sides as spec;
ghost use Rattle.iso_file.specs.Isos.{AreVars};
ghost use Rattle.iso_file.specs.Stepped as stepped;
ghost use Rattle.iso_file.specs.Stepped.{Decides};

use c_expr::ranges_have_one_tree;
use c_terms::{MetaKind, NoMemory};
use smpl_lexer::{PatchToken, is_sign, is_word};
use smpl_meta::{Earlier, read_decls};
use smpl_patch::{PatchFault, VarDecl, VarKind};
use sqlite_items::Items;
use std::alloc::Global;

fn is_kind_word(t: &PatchToken) -> bool
    ensures { result ≡ spec.is_kind_word t.now }
{
    is_word(t, b"expression") || is_word(t, b"constant") || is_word(t, b"identifier")
}

/// Whether each declaration begins with one of the words for the allowed kinds.
fn are_of_kinds(tokens: &[PatchToken]) -> bool
    ensures { result ≡ spec.are_of_kinds true tokens.now }
{
    let mut begins = true;
    for t in tokens {
        if begins && !is_kind_word(t) {
            return false;
        }
        begins = is_sign(t, b";");
    }
    true
}

fn is_kind(kind: VarKind) -> bool
    ensures { result ≡ spec.is_kind kind }
{
    matches!(
        kind,
        VarKind::Meta(MetaKind::Expr)
            | VarKind::Meta(MetaKind::Constant)
            | VarKind::Meta(MetaKind::Ident)
    )
}

fn have_kinds(vars: &[VarDecl]) -> bool
    ensures { result ≡ spec.have_kinds vars.now }
{
    for d in vars {
        if !(is_kind(d.kind) && d.wanted.is_anything()) {
            return false;
        }
    }
    true
}

fn with_kinds(vars: Items<VarDecl>) -> Option<Items<VarDecl>>
    ensures { result ≡ spec.with_kinds vars }
{
    if have_kinds(vars.as_slice()) {
        Some(vars)
    } else {
        None
    }
}

fn is_no_memory(fault: &PatchFault) -> bool
    ensures { result ≡ stepped.is_no_memory fault.now }
{
    matches!(fault, PatchFault::NoMemory)
}

/// Returns `None` for declarations with a fault, unless it is that memory ran out.
fn no_vars(tokens: &[PatchToken], fault: PatchFault) -> Result<Option<Items<VarDecl>>, NoMemory>
    requires { OrNoMemory (IsDeclFault [] tokens.now) fault }
    ensures { IfOk result (λ vars. Decides (AreVars tokens.now) vars) }
{
    ranges_have_one_tree();
    if is_no_memory(&fault) {
        return Err(NoMemory);
    }
    Ok(None)
}

/// Returns the variables of declarations, or `None` if these aren't of the form.
pub fn vars_of(alloc: Global, tokens: &[PatchToken]) -> Result<Option<Items<VarDecl>>, NoMemory>
    ensures { IfOk result (λ vars. Decides (AreVars tokens.now) vars) }
{
    ranges_have_one_tree();
    if !are_of_kinds(tokens) {
        return Ok(None);
    }
    let earlier = Earlier::of(alloc, &[])?;
    match read_decls(alloc, tokens, 0, &earlier) {
        Ok(vars) => Ok(with_kinds(vars)),
        Err(fault) => no_vars(tokens, fault),
    }
}
