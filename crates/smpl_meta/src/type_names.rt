// The names of a rule's `type` metavariables.
ghost use Rattle.std.specs.Prelude.{◌≡◌, [], OnOk};
ghost use Rattle.c_terms.specs.Names.{has_name, with_name};
ghost use Rattle.smpl_meta.specs.TypeNames as spec;

use crate::item::{DeclKind, Item};
use c_terms::{Label, MetaKind, NoMemory, Text, TokenKind, Tree};
use indexmap::IndexSet;
use smpl_patch::VarKind;
use std::alloc::Global;
use std::marker::Model;

/// The names that a rule has declared as `type` metavariables so far, inherited ones too. They are found by a hash.
#[derive(Drop)]
pub struct TypeNames {
    names: IndexSet<Vec<u8>>,
}

impl Model for TypeNames {
    ghost use Rattle.std.specs.Prelude.{List, ℕ, map};

    ghost Value = { List (List ℕ) };

    ghost view = { λ t. map (λ name. name.items) t.names.keys };
}

impl TypeNames {
    /// Returns no names. Takes no memory.
    pub fn new(alloc: Global) -> TypeNames
        ensures none { result ≡ [] }
    {
        TypeNames {
            names: IndexSet::new(alloc),
        }
    }

    fn has(&self, name: &[u8]) -> bool
        ensures { result ≡ has_name self.now name.now }
    {
        self.names.contains(name)
    }

    /// Adds a new name. A known one changes nothing.
    fn put(&mut self, alloc: Global, name: &Text) -> Result<(), NoMemory>
        ensures { OnOk result (self.new ≡ with_name self.old name.now) }
    {
        if self.has(name.as_bytes()) {
            return Ok(());
        }
        let key = Vec::from_slice(alloc, name.as_bytes())?;
        self.names.insert(key)?;
        Ok(())
    }

    /// Adds the item's name, if the item is of the kind `type`.
    fn put_item(&mut self, alloc: Global, item: &Item) -> Result<(), NoMemory>
        ensures { OnOk result (self.new ≡ spec.with_name_of self.old item.now) }
    {
        if is_type(item.kind) {
            self.put(alloc, &item.named.name.token.text)
        } else {
            Ok(())
        }
    }

    /// Adds the names of these items that are of the kind `type`.
    pub fn add(&mut self, alloc: Global, items: &[Item]) -> Result<(), NoMemory>
        ensures more { OnOk result (self.new ≡ spec.with_type_names self.old items.now) }
    {
        for item in items {
            self.put_item(alloc, item)?;
        }
        Ok(())
    }

    /// Whether specifiers in the tree name one of these types, other than as a tag. Recurses once per level.
    #[tactic(auto, using(crate::proofs::NamingLemmas::named_leaf, crate::proofs::NamingLemmas::named_branch))]
    pub fn is_named_in(&self, tree: &Tree) -> bool
        ensures value { result ≡ spec.is_named_in self.now tree.now }
    {
        match tree {
            Tree::Leaf(_) => false,
            Tree::Branch(label, children) => {
                for child in children.as_slice() {
                    if self.names_type(*label, child) || self.is_named_in(child) {
                        return true;
                    }
                }
                false
            }
        }
    }

    /// Whether a child of a branch of this label is a specifier that names one of these types.
    fn names_type(&self, label: Label, child: &Tree) -> bool
        ensures { result ≡ spec.names_type self.now label child.now }
    {
        match child {
            Tree::Leaf(token) => {
                matches!(label, Label::Specs)
                    && token.kind == TokenKind::Name
                    && self.has(token.text.as_bytes())
            }
            Tree::Branch(_, _) => false,
        }
    }
}

fn is_type(kind: DeclKind) -> bool
    ensures { result ≡ spec.is_type kind }
{
    matches!(kind, DeclKind::Var(VarKind::Meta(MetaKind::Typ)))
}
