// Which expressions a metavariable wants, at their places.
ghost use Rattle.std.specs.Prelude.{◌≡◌};
ghost use Rattle.std.specs.Option.{option_copied};
ghost use Rattle.c_terms.specs.declared.tree.Tree.{out-Tree};
ghost use Rattle.c_types.specs.Tables.{type_in};
ghost use Rattle.pat_match.specs.Wants as spec;

use c_terms::{TokenKind, Tree};
use c_types::{KnownTypes, Ty, element, same_type};
use smpl_patch::{NameWanted, TypeWanted, Wanted};

fn is_name(tree: &Tree) -> bool
    ensures { result ≡ spec.is_name (out-Tree tree.now) }
{
    match tree {
        Tree::Leaf(token) => token.kind == TokenKind::Name,
        Tree::Branch(_, _) => false,
    }
}

fn is_name_wanted(types: &KnownTypes<'_>, name: NameWanted, tree: &Tree) -> bool
    ensures { result ≡ spec.is_name_wanted types.now name tree.now }
{
    match name {
        NameWanted::Any => true,
        NameWanted::Name => is_name(tree),
        NameWanted::Local => types.is_local(tree),
    }
}

/// Whether the type is that many times a pointer to something, or an array of it.
fn is_pointer(times: u32, ty: &Ty) -> bool
    ensures { result ≡ spec.is_pointer times ty.now }
{
    let mut inner = ty;
    for _ in 0..times {
        match element(inner) {
            Some(next) => inner = next,
            None => return false,
        }
    }
    true
}

fn is_known_wanted(wanted: &TypeWanted, found: Option<&Ty>) -> bool
    ensures { result ≡ spec.is_type_wanted wanted.now (option_copied found.entry) }
{
    match wanted {
        TypeWanted::Any => true,
        TypeWanted::Is(ty) => match found {
            None => false,
            Some(found) => same_type(ty, found),
        },
        TypeWanted::Pointer(times) => match found {
            None => false,
            Some(found) => is_pointer(*times, found),
        },
    }
}

/// The type is looked up only if one is wanted.
fn is_type_wanted(types: &KnownTypes<'_>, wanted: &TypeWanted, tree: &Tree) -> bool
    ensures { result ≡ spec.is_type_wanted wanted.now (type_in types.now tree.now) }
{
    match wanted {
        TypeWanted::Any => true,
        _ => is_known_wanted(wanted, types.type_of(tree)),
    }
}

/// Whether a subtree of an item is what the metavariable wants, given the types that are known of the item's expressions. Takes
/// two steps if any expression is wanted, and otherwise is linear in the subtree. Takes no memory.
pub fn is_wanted(types: &KnownTypes<'_>, wanted: &Wanted, tree: &Tree) -> bool
    ensures { result ≡ spec.is_wanted types.now wanted.now tree.now }
{
    is_name_wanted(types, wanted.name, tree) && is_type_wanted(types, &wanted.ty, tree)
}
