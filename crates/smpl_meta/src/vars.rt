// The variables of declarations.
ghost use Rattle.std.specs.Prelude.{◌≡◌, ◌++◌, IfOk};
ghost use Rattle.std.specs.Option.{option_copied};
ghost use Rattle.smpl_meta.specs.Decls as spec;

use crate::earlier::Earlier;
use crate::item::{DeclKind, Item, Named};
use c_terms::{NoMemory, Text};
use smpl_lexer::PatchToken;
use smpl_patch::{VarDecl, VarKind};
use smpl_terms::Var;
use sqlite_items::Items;
use std::alloc::Global;

fn texts_of(alloc: Global, nots: &[Named]) -> Result<Items<Text>, NoMemory>
    ensures { IfOk result (λ out. out ≡ spec.texts_of nots.now) }
{
    let mut out = Items::new(alloc);
    for n in nots {
        out.push(n.name.token.text.copy(alloc)?)?;
    }
    Ok(out)
}

fn names_not(alloc: Global, kind: VarKind, nots: &[Named]) -> Result<Items<Text>, NoMemory>
    ensures { IfOk result (λ out. out ≡ spec.names_not kind nots.now) }
{
    match kind {
        VarKind::Meta(_) => texts_of(alloc, nots),
        VarKind::Position => Ok(Items::new(alloc)),
    }
}

fn push_var(
    alloc: Global,
    vars: Items<Var>,
    found: Option<&VarDecl>,
) -> Result<Items<Var>, NoMemory>
    ensures { IfOk result (λ out. out ≡ vars ++ spec.var_in (option_copied found.entry)) }
{
    let mut vars = vars;
    match found {
        None => Ok(vars),
        Some(d) => {
            vars.push(d.var.copy(alloc)?)?;
            Ok(vars)
        }
    }
}

fn push_place(
    alloc: Global,
    earlier: &Earlier,
    vars: Items<Var>,
    from: &Option<PatchToken>,
    x: &PatchToken,
) -> Result<Items<Var>, NoMemory>
    ensures { IfOk result (λ out. out ≡ vars ++ spec.place_not earlier.now.heads from.now x.now) }
{
    match from {
        None => Ok(vars),
        Some(r) => {
            let found = earlier.var_of(r.token.text.as_bytes(), x.token.text.as_bytes());
            push_var(alloc, vars, found)
        }
    }
}

fn places_not(alloc: Global, earlier: &Earlier, nots: &[Named]) -> Result<Items<Var>, NoMemory>
    ensures { IfOk result (λ out. out ≡ spec.places_not earlier.now.heads nots.now) }
{
    let mut vars = Items::new(alloc);
    for n in nots {
        vars = push_place(alloc, earlier, vars, &n.from, &n.name)?;
    }
    Ok(vars)
}

fn own(
    alloc: Global,
    earlier: &Earlier,
    rule: u32,
    kind: VarKind,
    i: &Item,
) -> Result<VarDecl, NoMemory>
    ensures { IfOk result (λ d. d ≡ spec.own earlier.now.heads rule kind i.now) }
{
    let name = i.named.name.token.text.copy(alloc)?;
    let not_names = names_not(alloc, kind, i.nots.as_slice())?;
    let not_places = places_not(alloc, earlier, i.nots.as_slice())?;
    let wanted = i.wanted.copy(alloc)?;
    Ok(VarDecl {
        var: Var { rule, name },
        kind,
        inherited: false,
        not_names,
        not_places,
        wanted,
    })
}

fn push_inherited(
    alloc: Global,
    vars: Items<VarDecl>,
    kind: VarKind,
    found: Option<&VarDecl>,
) -> Result<Items<VarDecl>, NoMemory>
    ensures { IfOk result
        (λ out. out ≡ vars ++ spec.inherited_from kind (option_copied found.entry)) }
{
    let mut vars = vars;
    match found {
        None => Ok(vars),
        Some(d) => {
            vars.push(VarDecl {
                var: d.var.copy(alloc)?,
                kind,
                inherited: true,
                not_names: Items::new(alloc),
                not_places: Items::new(alloc),
                wanted: d.wanted.copy(alloc)?,
            })?;
            Ok(vars)
        }
    }
}

fn push_by(
    alloc: Global,
    earlier: &Earlier,
    rule: u32,
    vars: Items<VarDecl>,
    kind: VarKind,
    i: &Item,
) -> Result<Items<VarDecl>, NoMemory>
    ensures { IfOk result
        (λ out. out ≡ vars ++ spec.var_by earlier.now.heads rule kind i.now.named.from i.now) }
{
    let mut vars = vars;
    match &i.named.from {
        None => {
            vars.push(own(alloc, earlier, rule, kind, i)?)?;
            Ok(vars)
        }
        Some(r) => {
            let found = earlier.var_of(r.token.text.as_bytes(), i.named.name.token.text.as_bytes());
            push_inherited(alloc, vars, kind, found)
        }
    }
}

fn push_vars(
    alloc: Global,
    earlier: &Earlier,
    rule: u32,
    vars: Items<VarDecl>,
    i: &Item,
) -> Result<Items<VarDecl>, NoMemory>
    ensures { IfOk result
        (λ out. out ≡ vars ++ spec.vars_in earlier.now.heads rule i.now.kind i.now) }
{
    match i.kind {
        DeclKind::Symbol => Ok(vars),
        DeclKind::Var(kind) => push_by(alloc, earlier, rule, vars, kind, i),
    }
}

/// Returns the variables that items declare. Linear.
pub fn vars_of(
    alloc: Global,
    earlier: &Earlier,
    rule: u32,
    items: &[Item],
) -> Result<Items<VarDecl>, NoMemory>
    ensures { IfOk result (λ out. out ≡ spec.vars_of_items earlier.now.heads rule items.now) }
{
    let mut vars = Items::new(alloc);
    for i in items {
        vars = push_vars(alloc, earlier, rule, vars, i)?;
    }
    Ok(vars)
}
