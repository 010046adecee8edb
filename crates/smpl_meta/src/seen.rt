// The names of the items seen so far, each found by one look-up.
ghost use Rattle.std.specs.Prelude.{◌≡◌, IfOk, if◌then◌else◌, true};
ghost use Rattle.smpl_meta.specs.Seen as spec;
ghost use Rattle.smpl_meta.specs.Decls as declared;
ghost use Rattle.smpl_meta.specs.declared.item.Item.{Item as Declared};

use crate::index::NameIndex;
use crate::item::{DeclKind, Item};
use c_terms::NoMemory;
use std::alloc::Global;

/// The names of all items, and the names of those that aren't symbols.
#[derive(Drop)]
pub struct Seen {
    pub all: NameIndex,
    pub variables: NameIndex,
}

pub fn is_symbol(kind: DeclKind) -> bool
    ensures { result ≡ declared.is_symbol kind }
{
    matches!(kind, DeclKind::Symbol)
}

/// Whether an earlier item has the same name, unless both are symbols. Takes one look-up.
pub fn is_seen(seen: &Seen, i: &Item) -> bool
    ensures { result ≡ spec.is_seen seen.now i.now }
{
    let name = i.named.name.token.text.as_bytes();
    if is_symbol(i.kind) {
        seen.variables.find(name).is_some()
    } else {
        seen.all.find(name).is_some()
    }
}

fn with_name(
    alloc: Global,
    index: NameIndex,
    symbol: bool,
    name: &[u8],
) -> Result<NameIndex, NoMemory>
    ensures { IfOk result (λ r. spec.IsPut symbol name.now index r) }
{
    let mut index = index;
    if !symbol {
        index.put(alloc, name, 0)?;
    }
    Ok(index)
}

/// Adds an item to those seen so far.
pub fn with_seen(alloc: Global, seen: Seen, i: &Item) -> Result<Seen, NoMemory>
    ensures { IfOk result (λ r. (j : Declared) → spec.is_seen r j
        ≡ (if spec.is_seen seen j then true else declared.is_again j i.now)) }
{
    let Seen { all, variables } = seen;
    let name = i.named.name.token.text.as_bytes();
    let all = with_name(alloc, all, false, name)?;
    let variables = with_name(alloc, variables, is_symbol(i.kind), name)?;
    Ok(Seen { all, variables })
}
