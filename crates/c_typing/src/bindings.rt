// Names and their types, found by a hash.
ghost use Rattle.std.specs.Prelude.{◌≡◌, ◌++◌, ◌∷◌, [], take, length, OnOk, OnErr};
ghost use Rattle.std.specs.Option.{option_copied};
ghost use Rattle.c_typing.specs.declared.binding.Binding.{Binding};
ghost use Rattle.c_typing.specs.Names.{last_type};

use crate::binding::Binding;
use crate::numbers::Numbers;
use c_terms::{NoMemory, Text};
use c_types::Ty;
use std::alloc::Global;
use std::marker::Model;

/// A declared name, its type, and one more than the number of the entry before it that has the same name, or 0.
#[derive(Drop)]
struct Entry {
    name: Text,
    ty: Option<Ty>,
    before: usize,
}

/// Names and their types in the order of their declarations. The last of a name is found by a hash.
///
/// `lasts` has for each name one more than the number of its last entry, or 0. So to take back the last declaration takes one
/// step.
#[derive(Drop)]
pub(crate) struct Bindings {
    lasts: Numbers,
    entries: Vec<Entry>,
}

impl Model for Bindings {
    ghost use Rattle.std.specs.Prelude.{List};
    ghost use Rattle.std.specs.Coded.{codes};
    ghost use Rattle.c_types.specs.contracts.ty.Ty as ty;
    ghost use Rattle.c_typing.specs.declared.binding.Binding.{Binding as Datum};
    ghost use Rattle.c_typing.specs.Entries.{bindings_of, AreLinked};

    ghost Value = { List Datum };

    ghost coded = { Prim.hlevel (codes, ty.the_row.coded) };

    ghost view = { λ b. bindings_of b.entries.items };

    ghost invariant = { λ b. AreLinked b.lasts b.entries.items };
}

impl Bindings {
    pub(crate) fn new(alloc: Global) -> Bindings
        ensures { result ≡ [] }
    {
        Bindings {
            lasts: Numbers::new(alloc),
            entries: Vec::new(alloc),
        }
    }

    pub(crate) fn len(&self) -> usize
        ensures { result ≡ length self.now }
    {
        self.entries.len()
    }

    /// Appends a name. Two look-ups; linear in the name.
    pub(crate) fn push(&mut self, alloc: Global, binding: Binding) -> Result<(), NoMemory>
        ensures ok { OnOk result (self.new ≡ self.old ++ binding ∷ []) }
        ensures err { OnErr result (self.new ≡ self.old) }
    {
        let Binding { name, ty } = binding;
        let before = self.lasts.get(name.as_bytes());
        self.entries.reserve(1)?;
        let last = self.entries.len() + 1;
        self.lasts.put(alloc, name.as_bytes(), last)?;
        self.entries.push_reserved(Entry { name, ty, before });
        Ok(())
    }

    /// Takes back all but the first `len` names. One look-up for each.
    pub(crate) fn truncate(&mut self, len: usize)
        ensures { self.new ≡ take len self.old }
    {
        while self.entries.len() > len {
            let last = self.entries.len() - 1;
            let entry = &self.entries[last];
            self.lasts.set(entry.name.as_bytes(), entry.before);
            self.entries.truncate(last);
        }
    }

    /// Returns the type of the last declaration of the name, or nothing if it isn't declared. One look-up.
    #[tactic(auto, using(crate::proofs::EntryLemmas::found_some))]
    pub(crate) fn find(&self, name: &[u8]) -> Option<&Option<Ty>>
        ensures { option_copied result ≡ last_type self.now name.now }
    {
        let last = self.lasts.get(name);
        if last == 0 {
            return None;
        }
        Some(&self.entries[last - 1].ty)
    }
}
