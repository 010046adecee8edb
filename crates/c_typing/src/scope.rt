// What the items of a file have declared.
ghost use Rattle.std.specs.Prelude.{◌≡◌, ◌++◌, IfOk, OnOk, OnErr, take, length};
ghost use Rattle.std.specs.Option.{option_copied};
ghost use Rattle.c_typing.specs.Declarations.{declared_for_rest};
ghost use Rattle.c_typing.specs.Names.{last_type};
ghost use Rattle.c_typing.specs.Fields.{field_type};
ghost use Rattle.c_typing.specs.Scopes as spec;

use crate::binding::Binding;
use crate::bindings::Bindings;
use crate::declaration::{declared_for_rest, item_names};
use crate::field::Fields;
use c_terms::{Label, NoMemory, Tree};
use c_types::Ty;
use std::alloc::Global;

/// The names that items have declared, with their types, and the fields of the structures and unions that they define.
#[derive(Drop)]
pub struct Scope {
    pub(crate) names: Bindings,
    pub(crate) fields: Fields,
}

impl Scope {
    /// Returns a scope without names and fields. Allocates nothing.
    pub fn new(alloc: Global) -> Scope
        ensures empty { result ≡ spec.no_declarations }
    {
        Scope {
            names: Bindings::new(alloc),
            fields: Fields::new(alloc),
        }
    }

    /// Adds what the item declares at its top level: its names at the end, and the fields of the structures and unions
    /// with a tag in its specifiers, of which those that are there change nothing. Linear in what it declares. Recurses
    /// once per level of the declarators and structures.
    pub fn add(&mut self, alloc: Global, item: &Tree) -> Result<(), NoMemory>
        ensures ok { OnOk result (self.new ≡ spec.with_item self.old item.now) }
        ensures err { OnErr result (self.new ≡ self.old) }
    {
        let names = self.names.len();
        let fields = self.fields.len();
        match self.try_add(alloc, item) {
            Ok(()) => Ok(()),
            Err(NoMemory) => {
                self.names.truncate(names);
                self.fields.truncate(fields);
                Err(NoMemory)
            }
        }
    }

    /// Returns the type of the last declaration of a name, or nothing if there is none. One look-up.
    pub fn name_type(&self, name: &[u8]) -> Option<&Option<Ty>>
        ensures value { option_copied result ≡ last_type self.now.names name.now }
    {
        self.names.find(name)
    }

    /// Returns the type of a field of the structure or union with this tag, or nothing if there is none. One look-up.
    pub fn field_type(
        &self,
        alloc: Global,
        is_union: bool,
        tag: &[u8],
        name: &[u8],
    ) -> Result<Option<&Option<Ty>>, NoMemory>
        ensures value { IfOk result (λ found. option_copied found ≡ field_type self.now.fields is_union tag.now name.now) }
    {
        self.fields.find(alloc, is_union, tag, name)
    }

    fn try_add(&mut self, alloc: Global, item: &Tree) -> Result<(), NoMemory>
        ensures ok { OnOk result (self.new ≡ spec.with_item self.old item.now) }
        ensures names { take (length self.old.names) self.new.names ≡ self.old.names }
        ensures fields { take (length self.old.fields) self.new.fields ≡ self.old.fields }
    {
        self.fields.add_item(alloc, item)?;
        let names = item_names(alloc, item)?;
        push_all(alloc, names, &mut self.names)
    }
}

/// Appends the names.
pub(crate) fn push_all(
    alloc: Global,
    names: Vec<Binding>,
    bindings: &mut Bindings,
) -> Result<(), NoMemory>
    ensures ok { OnOk result (bindings.new ≡ bindings.old ++ names.items) }
    ensures kept { take (length bindings.old) bindings.new ≡ bindings.old }
{
    for binding in names {
        bindings.push(alloc, binding)?;
    }
    Ok(())
}

/// Appends the names that a child of a branch with this label declares for the children that follow it. One step, if the
/// label is one that declares nothing.
pub(crate) fn push_rest(
    alloc: Global,
    label: Label,
    child: &Tree,
    bindings: &mut Bindings,
) -> Result<(), NoMemory>
    ensures { OnOk result (bindings.new ≡ bindings.old ++ declared_for_rest label child.now) }
{
    match label {
        Label::Block | Label::ForDecl | Label::Params | Label::FunDef => {
            push_all(alloc, declared_for_rest(alloc, label, child)?, bindings)
        }
        _ => Ok(()),
    }
}

impl Fields {
    fn add_item(&mut self, alloc: Global, item: &Tree) -> Result<(), NoMemory>
        ensures ok { OnOk result (self.new ≡ spec.with_item_fields self.old item.now) }
        ensures kept { take (length self.old) self.new ≡ self.old }
    {
        match specifiers(item) {
            Some(specs) => self.add_all(alloc, specs),
            None => Ok(()),
        }
    }
}

fn specifiers_by(label: Label, children: &[Tree]) -> Option<&Tree>
    ensures { option_copied result ≡ spec.specifiers_by label children.now }
{
    match label {
        Label::Decl | Label::FunDef => children.get(0),
        _ => None,
    }
}

/// Returns the specifiers of a declaration or of a function.
fn specifiers(item: &Tree) -> Option<&Tree>
    ensures { option_copied result ≡ spec.specifiers item.now }
{
    match item {
        Tree::Leaf(_) => None,
        Tree::Branch(label, children) => specifiers_by(*label, children.as_slice()),
    }
}
