// The fields of structures and unions.
ghost use Rattle.std.specs.Prelude.{◌≡◌, [], IfOk, OnOk, OnErr, map, take, length};
ghost use Rattle.std.specs.Option.{option_copied};
ghost use Rattle.c_terms.specs.Trees.{join};
ghost use Rattle.c_typing.specs.Fields as spec;

use crate::base::{is_word_at, name_at};
use crate::binding::Binding;
use crate::declaration::declared_by;
use crate::key::FieldKey;
use c_terms::{Label, NoMemory, Tree};
use c_types::Ty;
use indexmap::IndexMap;
use std::alloc::Global;
use std::marker::Model;

/// Fields and their types. The first declaration of a field counts.
#[derive(Drop)]
pub(crate) struct Fields {
    types: IndexMap<FieldKey, Option<Ty>>,
}

impl Model for Fields {
    ghost use Rattle.std.specs.Prelude.{List};
    ghost use Rattle.std.specs.Coded.{codes};
    ghost use Rattle.c_types.specs.contracts.ty.Ty as ty;
    ghost use Rattle.c_typing.specs.Fields.{Field, fields_of_entries};

    ghost Value = { List Field };

    ghost coded = { Prim.hlevel (codes, ty.the_row.coded) };

    ghost view = { λ f. fields_of_entries f.types.entries };
}

impl Fields {
    pub(crate) fn new(alloc: Global) -> Fields
        ensures { result ≡ [] }
    {
        Fields {
            types: IndexMap::new(alloc),
        }
    }

    pub(crate) fn len(&self) -> usize
        ensures { result ≡ length self.now }
    {
        self.types.len()
    }

    /// Adds a field at the end. One that is there changes nothing.
    fn add(
        &mut self,
        alloc: Global,
        is_union: bool,
        tag: &[u8],
        binding: Binding,
    ) -> Result<(), NoMemory>
        ensures ok { OnOk result (self.new ≡ spec.with_field self.old (spec.field_of is_union tag.now binding)) }
        ensures err { OnErr result (self.new ≡ self.old) }
    {
        let key = FieldKey::of(alloc, is_union, tag, binding.name.as_bytes())?;
        if self.types.contains_key(&key) {
            return Ok(());
        }
        self.types.insert(key, binding.ty)?;
        Ok(())
    }

    /// Keeps the first `len` fields.
    pub(crate) fn truncate(&mut self, len: usize)
        ensures { self.new ≡ take len self.old }
    {
        self.types.truncate(len);
    }

    /// Returns the type of a field, or nothing if it isn't declared. One look-up.
    pub(crate) fn find(
        &self,
        alloc: Global,
        is_union: bool,
        tag: &[u8],
        name: &[u8],
    ) -> Result<Option<&Option<Ty>>, NoMemory>
        ensures { IfOk result (λ found. option_copied found ≡ spec.field_type self.now is_union tag.now name.now) }
    {
        let key = FieldKey::of(alloc, is_union, tag, name)?;
        Ok(self.types.get(&key))
    }

    /// Adds fields of a structure or union with this tag.
    fn add_each(
        &mut self,
        alloc: Global,
        is_union: bool,
        tag: &[u8],
        bindings: Vec<Binding>,
    ) -> Result<(), NoMemory>
        ensures ok { OnOk result (self.new ≡ spec.with_fields self.old (map (spec.field_of is_union tag.now) bindings.items)) }
        ensures kept { take (length self.old) self.new ≡ self.old }
    {
        for binding in bindings {
            self.add(alloc, is_union, tag, binding)?;
        }
        Ok(())
    }

    /// Adds the fields that one row of a structure or union with this tag declares, if the row declares fields.
    fn add_row(
        &mut self,
        alloc: Global,
        is_union: bool,
        tag: &[u8],
        label: Label,
        children: &[Tree],
    ) -> Result<(), NoMemory>
        ensures ok { OnOk result (self.new
            ≡ spec.with_fields self.old (spec.declared_by_row is_union tag.now label children.now)) }
        ensures kept { take (length self.old) self.new ≡ self.old }
    {
        match label {
            Label::Field => self.add_each(alloc, is_union, tag, declared_by(alloc, children)?),
            _ => Ok(()),
        }
    }

    fn add_declared(
        &mut self,
        alloc: Global,
        is_union: bool,
        tag: &[u8],
        tree: &Tree,
    ) -> Result<(), NoMemory>
        ensures ok { OnOk result (self.new ≡ spec.with_fields self.old (spec.declared_fields is_union tag.now tree.now)) }
        ensures kept { take (length self.old) self.new ≡ self.old }
    {
        match tree {
            Tree::Leaf(_) => Ok(()),
            Tree::Branch(label, children) => {
                self.add_row(alloc, is_union, tag, *label, children.as_slice())
            }
        }
    }

    /// Adds the fields that the rows of a structure or union with this tag declare.
    fn add_rows(
        &mut self,
        alloc: Global,
        is_union: bool,
        tag: &[u8],
        rows: &[Tree],
    ) -> Result<(), NoMemory>
        ensures ok { OnOk result (self.new
            ≡ spec.with_fields self.old (join (map (spec.declared_fields is_union tag.now) rows.now))) }
        ensures kept { take (length self.old) self.new ≡ self.old }
    {
        for row in rows {
            self.add_declared(alloc, is_union, tag, row)?;
        }
        Ok(())
    }

    /// Adds the fields of a structure's own declarations, if it has a tag.
    fn add_own(&mut self, alloc: Global, label: Label, children: &[Tree]) -> Result<(), NoMemory>
        ensures ok { OnOk result (self.new ≡ spec.with_fields self.old (spec.own_fields label children.now)) }
        ensures kept { take (length self.old) self.new ≡ self.old }
    {
        match label {
            Label::StructDef => match name_at(children, 1) {
                Some(tag) => {
                    let is_union = is_word_at(children, 0, b"union");
                    self.add_rows(alloc, is_union, tag.as_bytes(), children)
                }
                None => Ok(()),
            },
            _ => Ok(()),
        }
    }

    /// Adds the fields of all structures and unions with a tag in the specifiers of a declaration, those of a structure before
    /// those of the structures in its fields. Recurses once per level.
    pub(crate) fn add_all(&mut self, alloc: Global, tree: &Tree) -> Result<(), NoMemory>
        ensures ok { OnOk result (self.new ≡ spec.with_fields self.old (spec.fields_in tree.now)) }
        ensures kept { take (length self.old) self.new ≡ self.old }
    {
        match tree {
            Tree::Leaf(_) => Ok(()),
            Tree::Branch(label, children) => {
                self.add_own(alloc, *label, children.as_slice())?;
                for (i, child) in children.as_slice().iter().enumerate() {
                    if may_define(*label, i) {
                        self.add_all(alloc, child)?;
                    }
                }
                Ok(())
            }
        }
    }
}

/// Whether structures in child `i` of a branch with this label belong to the specifiers.
fn may_define(label: Label, i: usize) -> bool
    ensures { result ≡ spec.may_define label i }
{
    match label {
        Label::Specs | Label::StructDef => true,
        Label::Field => i == 0,
        _ => false,
    }
}
