// The types of the expressions of an item.
ghost use Rattle.std.specs.Prelude.{◌≡◌, ◌++◌, IfOk, OnOk};
ghost use Rattle.std.specs.Option.{option_copied};
ghost use Rattle.c_typing.specs.Declarations as declared;
ghost use Rattle.c_typing.specs.Parts as spec;
ghost use Rattle.c_types.specs.Tables.{typed, with_type, with_all, with_ids};
ghost use Rattle.c_typing.specs.ItemTypes.{item_types};

use crate::bindings::Bindings;
use crate::declaration::own_name;
use crate::expression::{branch_type, flat, type_at};
use crate::local::local_names;
use crate::scope::{Scope, push_all, push_rest};
use c_terms::{NoMemory, Token, TokenKind, Tree, is_expression_part};
use c_types::{TreeKey, Ty, TypeTable, copy_type, expression_keys};
use sqlite_items::Items;
use std::alloc::Global;

/// Returns the type of a name, by the last declaration of it: of those in the item, or else of those before the item.
#[tactic(auto, using(crate::proofs::EntryLemmas::last_append))]
fn name_type<'s>(scope: &'s Scope, locals: &'s Bindings, token: &Token) -> Option<&'s Ty>
    ensures { option_copied result ≡ spec.token_type (scope.now.names ++ locals.now) token.now }
{
    if token.kind != TokenKind::Name {
        return None;
    }
    let name = token.text.as_bytes();
    match locals.find(name) {
        Some(ty) => ty.as_ref(),
        None => flat(scope.names.find(name)),
    }
}

/// Returns the type of a child, and appends it if `is_part` is true; then appends the types of the expressions in the child.
#[cycle(types)]
fn put_child(
    alloc: Global,
    scope: &Scope,
    is_part: bool,
    child: &Tree,
    locals: &mut Bindings,
    found: &mut Items<Option<Ty>>,
) -> Result<Option<Ty>, NoMemory>
    ensures own { IfOk result (λ ty. ty ≡ spec.type_of (scope.now.names ++ locals.old) scope.now.fields child.now) }
    ensures parts { OnOk result (found.new ≡ found.old
        ++ spec.child_types is_part (scope.now.names ++ locals.old) scope.now.fields child.now) }
    ensures locals { OnOk result (locals.new ≡ locals.old) }
{
    if is_part {
        let at = found.len();
        found.push(None)?;
        let ty = put_types(alloc, scope, child, locals, found)?;
        found.set(at, copy_type(alloc, ty.as_ref())?);
        Ok(ty)
    } else {
        put_types(alloc, scope, child, locals, found)
    }
}

/// Returns the type of a tree, if it is an expression that has one, and appends for each expression in it, by place, its type
/// or none. `locals` are the names that are declared in the item around the tree. Recurses once per level.
#[cycle(types)]
fn put_types(
    alloc: Global,
    scope: &Scope,
    tree: &Tree,
    locals: &mut Bindings,
    found: &mut Items<Option<Ty>>,
) -> Result<Option<Ty>, NoMemory>
    ensures own { IfOk result (λ ty. ty ≡ spec.type_of (scope.now.names ++ locals.old) scope.now.fields tree.now) }
    ensures parts { OnOk result (found.new ≡ found.old
        ++ spec.part_types (scope.now.names ++ locals.old) scope.now.fields tree.now) }
    ensures locals { OnOk result (locals.new ≡ locals.old) }
{
    match tree {
        Tree::Leaf(token) => copy_type(alloc, name_type(scope, locals, token)),
        Tree::Branch(label, children) => {
            let outer = locals.len();
            let mut types = Vec::new(alloc);
            for (i, child) in children.as_slice().iter().enumerate() {
                let is_part = is_expression_part(*label, i, child);
                types.push(put_child(alloc, scope, is_part, child, locals, found)?)?;
                push_rest(alloc, *label, child, locals)?;
            }
            let ty = branch_type(
                alloc,
                &scope.fields,
                *label,
                children.as_slice(),
                types.as_slice(),
            )?;
            locals.truncate(outer);
            Ok(ty)
        }
    }
}

/// Adds an expression to the table, if it has a type.
fn put_type(
    alloc: Global,
    key: TreeKey,
    ty: Option<&Ty>,
    table: &mut TypeTable,
) -> Result<(), NoMemory>
    ensures { OnOk result (table.new
        ≡ record table.old { trees = with_type table.old.trees key (option_copied ty.entry) }) }
{
    match ty {
        Some(ty) => table.put(key, ty.copy(alloc)?),
        None => Ok(()),
    }
}

/// Adds the expressions that have a type to the table, each with what it is found by.
fn put_typed(
    alloc: Global,
    keys: &[TreeKey],
    types: &[Option<Ty>],
    table: &mut TypeTable,
) -> Result<(), NoMemory>
    ensures { OnOk result (table.new
        ≡ record table.old { trees = with_all table.old.trees (typed keys.now types.now) }) }
{
    for (i, key) in keys.iter().enumerate() {
        put_type(alloc, *key, type_at(types, i), table)?;
    }
    Ok(())
}

/// Adds the ids of local names to the table.
fn put_local_names(ids: &[u64], table: &mut TypeTable) -> Result<(), NoMemory>
    ensures { OnOk result (table.new ≡ record table.old { locals = with_ids table.old.locals ids.now }) }
{
    for id in ids {
        table.put_local(*id)?;
    }
    Ok(())
}

/// Returns for each expression of the item, by place, its type or none.
fn expression_types(
    alloc: Global,
    scope: &Scope,
    item: &Tree,
) -> Result<Items<Option<Ty>>, NoMemory>
    ensures { IfOk result (λ types. types
        ≡ spec.part_types (scope.now.names ++ declared.own_name item.now) scope.now.fields item.now) }
{
    let mut locals = Bindings::new(alloc);
    push_all(alloc, own_name(alloc, item)?, &mut locals)?;
    let mut types = Items::new(alloc);
    let _own = put_types(alloc, scope, item, &mut locals, &mut types)?;
    Ok(types)
}

/// Returns the types of the expressions of the item, and its local names. They are seen with what the scope has, which is to be
/// the items before this one in order.
///
/// Linear in the item and in the types that it returns, with at most three look-ups for each name, one for each member, and
/// eight for each name that the item declares. Names are found by a hash with a fixed seed, so names that are chosen to collide cost
/// more. Recurses once per level of the item.
pub fn annotate(alloc: Global, scope: &Scope, item: &Tree) -> Result<TypeTable, NoMemory>
    ensures types { IfOk result (λ table. table ≡ item_types scope.now item.now) }
{
    let types = expression_types(alloc, scope, item)?;
    let keys = expression_keys(alloc, item)?;
    let mut table = TypeTable::new(alloc);
    put_typed(alloc, keys.as_slice(), types.as_slice(), &mut table)?;
    let ids = local_names(alloc, item)?;
    put_local_names(ids.as_slice(), &mut table)?;
    Ok(table)
}
