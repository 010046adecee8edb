// The types of the expressions of an item, found by the expressions themselves.
ghost use Rattle.std.specs.Prelude.{◌≡◌, ◌++◌, ◌∷◌, [], OnOk, OnErr};
ghost use Rattle.std.specs.Option.{option_copied};
ghost use Rattle.c_types.specs.declared.tree_key.TreeKey.{TreeKey};
ghost use Rattle.c_types.specs.Tables as spec;

use crate::Ty;
use crate::tree_key::{TreeKey, key_of};
use c_terms::{NoMemory, Token, TokenKind, Tree};
use indexmap::{IndexMap, IndexSet};
use std::alloc::Global;
use std::marker::Model;

/// The types of the expressions of an item, and the ids of its local names: those that a declaration in the item declares.
#[derive(Drop)]
pub struct TypeTable {
    types: IndexMap<TreeKey, Ty>,
    locals: IndexSet<u64>,
}

impl Model for TypeTable {
    ghost use Rattle.std.specs.Coded.{codes};
    ghost use Rattle.c_types.specs.contracts.ty.Ty as ty;
    ghost use Rattle.c_types.specs.Tables.{ItemTypes, trees_of};

    ghost Value = { ItemTypes };

    ghost coded = { Prim.hlevel (codes, ty.the_row.coded) };

    ghost view = { λ t. record { trees = trees_of t.types.entries; locals = t.locals.keys } };
}

impl TypeTable {
    /// Returns a table without types. Allocates nothing.
    pub fn new(alloc: Global) -> TypeTable
        ensures empty { result ≡ spec.no_types }
    {
        TypeTable {
            types: IndexMap::new(alloc),
            locals: IndexSet::new(alloc),
        }
    }

    /// Adds an expression with its type at the end. One that is there changes nothing.
    pub fn put(&mut self, key: TreeKey, ty: Ty) -> Result<(), NoMemory>
        ensures ok { OnOk result (self.new
            ≡ record self.old { trees = spec.with_typed self.old.trees (record { key = key; ty = ty }) }) }
        ensures err { OnErr result (self.new ≡ self.old) }
    {
        if self.types.contains_key(&key) {
            return Ok(());
        }
        self.types.insert(key, ty)?;
        Ok(())
    }

    /// Adds the id of a local name. One that is there changes nothing.
    pub fn put_local(&mut self, id: u64) -> Result<(), NoMemory>
        ensures ok { OnOk result (self.new ≡ record self.old { locals = spec.with_id self.old.locals id }) }
        ensures err { OnErr result (self.new ≡ self.old) }
    {
        self.locals.insert(id)?;
        Ok(())
    }

    fn type_of(&self, tree: &Tree) -> Option<&Ty>
        ensures { option_copied result ≡ spec.type_in self.now tree.now }
    {
        let key = key_of(tree);
        self.types.get(&key)
    }
}

/// The types that are known of the expressions of an item, and its local names. They are borrowed, and contracts see them.
#[derive(Drop)]
pub struct KnownTypes<'t> {
    table: Option<&'t TypeTable>,
}

impl<'t> Model for KnownTypes<'t> {
    ghost use Rattle.std.specs.Coded.{codes};
    ghost use Rattle.c_types.specs.contracts.ty.Ty as ty;
    ghost use Rattle.std.specs.Option.{option_copied};
    ghost use Rattle.c_types.specs.Tables.{ItemTypes, types_or_none};

    ghost Value = { ItemTypes };

    ghost coded = { Prim.hlevel (codes, ty.the_row.coded) };

    ghost view = { λ k. types_or_none (option_copied k.table) };
}

impl<'t> KnownTypes<'t> {
    /// Returns no types. Takes no memory.
    pub fn none() -> KnownTypes<'t>
        ensures none { result ≡ spec.no_types }
    {
        KnownTypes { table: None }
    }

    /// Borrows a table, if there is one. Takes no memory.
    pub fn of(table: Option<&'t TypeTable>) -> KnownTypes<'t>
        ensures same { result ≡ spec.types_or_none (option_copied table.entry) }
    {
        KnownTypes { table }
    }

    /// Returns the same types, borrowed once more. Takes no memory.
    pub fn again(&self) -> KnownTypes<'t>
        ensures same { result ≡ self.now }
    {
        KnownTypes { table: self.table }
    }

    /// Returns the type of an expression of the item, if it is known. Linear in the expression, with one look-up. Takes no
    /// memory, and recurses once per level.
    pub fn type_of(&self, tree: &Tree) -> Option<&'t Ty>
        ensures value { option_copied result ≡ spec.type_in self.now tree.now }
    {
        match self.table {
            None => None,
            Some(table) => table.type_of(tree),
        }
    }

    /// Whether an expression of the item is a local name. One look-up; takes no memory.
    pub fn is_local(&self, tree: &Tree) -> bool
        ensures value { result ≡ spec.is_local self.now tree.now }
    {
        match tree {
            Tree::Leaf(token) => self.has_local(token),
            Tree::Branch(_, _) => false,
        }
    }

    fn has_local(&self, token: &Token) -> bool
        ensures { result ≡ spec.has_local self.now token.now }
    {
        match self.table {
            None => false,
            Some(table) => token.kind == TokenKind::Name && table.locals.contains(&token.id),
        }
    }
}
