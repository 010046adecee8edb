// What is wrong with declarations.
#![tactic(auto, using(crate::proofs::FirstLemmas::first_append))]

ghost use Rattle.std.specs.Prelude.{◌≡◌, [], IfOk};
ghost use Rattle.std.specs.Option.{option_copied};
ghost use Rattle.smpl_patch.specs.Faults.{first_from};
ghost use Rattle.smpl_meta.specs.Decls as spec;

use crate::earlier::Earlier;
use crate::index::NameIndex;
use crate::item::{DeclKind, Item, Named};
use crate::known::kind_number;
use crate::names::is_keyword;
use crate::seen::{Seen, is_seen, with_seen};
use c_terms::NoMemory;
use smpl_lexer::PatchToken;
use smpl_patch::{PatchFault, VarDecl, VarKind, earlier as earlier_fault};
use std::alloc::Global;

fn with_word(first: Option<PatchFault>, t: &PatchToken) -> Option<PatchFault>
    ensures { result ≡ first_from first (spec.word_fault t.now) }
{
    if is_keyword(t) {
        Some(earlier_fault(first, PatchFault::BadMetavariable(t.at)))
    } else {
        first
    }
}

fn with_from_word(first: Option<PatchFault>, from: &Option<PatchToken>) -> Option<PatchFault>
    ensures { result ≡ first_from first (spec.from_word from.now) }
{
    match from {
        None => first,
        Some(r) => with_word(first, r),
    }
}

fn with_twice(first: Option<PatchFault>, again: bool, i: &Item) -> Option<PatchFault>
    ensures { result ≡ first_from first (spec.twice_by again i.now) }
{
    if again {
        Some(earlier_fault(first, PatchFault::TwiceNamed(i.named.name.at)))
    } else {
        first
    }
}

fn is_kind(kind: DeclKind, found: VarKind) -> bool
    ensures { result ≡ spec.is_kind kind found }
{
    match kind {
        DeclKind::Symbol => false,
        DeclKind::Var(wanted) => kind_number(wanted) == kind_number(found),
    }
}

fn with_found(
    first: Option<PatchFault>,
    kind: DeclKind,
    r: &PatchToken,
    found: Option<&VarDecl>,
) -> Option<PatchFault>
    ensures { result ≡ first_from first (spec.found_fault kind r.now (option_copied found.entry)) }
{
    match found {
        None => Some(earlier_fault(first, PatchFault::UnknownRule(r.at))),
        Some(d) => {
            if is_kind(kind, d.kind) {
                first
            } else {
                Some(earlier_fault(first, PatchFault::KindDiffers(r.at)))
            }
        }
    }
}

fn with_from(
    first: Option<PatchFault>,
    earlier: &Earlier,
    kind: DeclKind,
    from: &Option<PatchToken>,
    x: &PatchToken,
) -> Option<PatchFault>
    ensures { result ≡ first_from first (spec.from_fault earlier.now.heads kind from.now x.now) }
{
    match from {
        None => first,
        Some(r) => {
            let found = earlier.var_of(r.token.text.as_bytes(), x.token.text.as_bytes());
            with_found(first, kind, r, found)
        }
    }
}

fn with_named(
    first: Option<PatchFault>,
    earlier: &Earlier,
    kind: DeclKind,
    named: &Named,
) -> Option<PatchFault>
    ensures { result ≡ first_from first (spec.named_faults earlier.now.heads kind named.now) }
{
    let first = with_from_word(first, &named.from);
    let first = with_word(first, &named.name);
    with_from(first, earlier, kind, &named.from, &named.name)
}

fn with_nots(
    first: Option<PatchFault>,
    earlier: &Earlier,
    kind: DeclKind,
    nots: &[Named],
) -> Option<PatchFault>
    ensures { result ≡ first_from first (spec.nots_faults earlier.now.heads kind nots.now) }
{
    let mut first = first;
    for named in nots {
        first = with_named(first, earlier, kind, named);
    }
    first
}

fn with_item(
    first: Option<PatchFault>,
    earlier: &Earlier,
    again: bool,
    i: &Item,
) -> Option<PatchFault>
    ensures { result ≡ first_from first (spec.item_faults_by again earlier.now.heads i.now) }
{
    let first = with_twice(first, again, i);
    let first = with_named(first, earlier, i.kind, &i.named);
    with_nots(first, earlier, i.kind, i.nots.as_slice())
}

/// Returns the first of the fault so far and the faults of items. Linear.
pub fn with_items(
    alloc: Global,
    first: Option<PatchFault>,
    earlier: &Earlier,
    items: &[Item],
) -> Result<Option<PatchFault>, NoMemory>
    ensures { IfOk result
        (λ f. f ≡ first_from first (spec.items_faults earlier.now.heads [] items.now)) }
{
    let mut first = first;
    let mut seen = Seen {
        all: NameIndex::new(alloc),
        variables: NameIndex::new(alloc),
    };
    for i in 0..items.len() {
        let item = &items[i];
        first = with_item(first, earlier, is_seen(&seen, item), item);
        seen = with_seen(alloc, seen, item)?;
    }
    Ok(first)
}
