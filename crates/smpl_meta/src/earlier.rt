// What precedes a rule, found by name.
ghost use Rattle.std.specs.Prelude.{◌≡◌, ◌==◌, ◌<◌, ◌^◌, length, slice_get, IfOk};
ghost use Rattle.std.specs.Option.{option_copied};
ghost use Rattle.smpl_meta.specs.Before.{first_under, with_head};
ghost use Rattle.smpl_meta.specs.Heads as spec;
ghost use Rattle.smpl_meta.specs.Known as known;

use crate::head::RuleHead;
use crate::index::NameTable;
use crate::variables::{names_of, var_by};
use c_terms::{NoMemory, Text};
use smpl_patch::VarDecl;
use sqlite_items::Items;
use std::alloc::Global;
use std::marker::Model;

/// A head in which one look-up finds a variable.
#[derive(Drop)]
struct KnownHead {
    head: RuleHead,
    names: NameTable,
}

impl Model for KnownHead {
    ghost use Rattle.std.specs.Prelude.{◌≡◌};
    ghost use Rattle.smpl_meta.specs.declared.head.RuleHead.{RuleHead as Head};
    ghost use Rattle.smpl_meta.specs.Index.{names_of};
    ghost use Rattle.std.specs.Coded.{codes};
    ghost use Rattle.smpl_patch.specs.contracts.rule.Dep as dep;
    ghost use Rattle.c_types.specs.contracts.ty.Ty as ty;

    ghost Value = { Head };

    ghost coded = { Prim.hlevel (codes, dep.the_row.coded, ty.the_row.coded) };

    ghost view = { λ known. known.head };

    ghost invariant = { λ known. known.names ≡ names_of known.head.vars };
}

impl KnownHead {
    fn of(alloc: Global, head: RuleHead) -> Result<KnownHead, NoMemory>
        ensures { IfOk result (λ k. k ≡ head) }
    {
        let names = names_of(alloc, head.vars.as_slice())?;
        Ok(KnownHead { head, names })
    }

    fn head(&self) -> &RuleHead
        ensures { result.now ≡ self.now }
    {
        &self.head
    }

    /// Returns the first variable with this name, if there is one.
    fn var(&self, name: &[u8]) -> Option<&VarDecl>
        ensures { option_copied result ≡ known.var_named name.now self.now.vars }
    {
        var_by(self.head.vars.as_slice(), &self.names, name)
    }
}

/// The names of `virtual` lines and the heads of the rules that precede a rule. One look-up finds a name.
#[derive(Drop)]
pub struct Earlier {
    virtuals: NameTable,
    heads: Items<KnownHead>,
    names: NameTable,
}

impl Model for Earlier {
    ghost use Rattle.std.specs.Prelude.{◌≡◌};
    ghost use Rattle.smpl_meta.specs.Before.{Before, head_names};
    ghost use Rattle.std.specs.Coded.{codes};
    ghost use Rattle.smpl_patch.specs.contracts.rule.Dep as dep;
    ghost use Rattle.c_types.specs.contracts.ty.Ty as ty;

    ghost Value = { Before };

    ghost coded = { Prim.hlevel (codes, dep.the_row.coded, ty.the_row.coded) };

    ghost view = { λ e. record { virtuals = e.virtuals; heads = e.heads } };

    ghost invariant = { λ e. e.names ≡ head_names e.heads };
}

impl Earlier {
    /// Returns what precedes the first rule: these names of `virtual` lines, and no heads. Linear in them. Fails only
    /// when out of memory.
    pub fn of(alloc: Global, virtuals: &[Text]) -> Result<Earlier, NoMemory>
        ensures { IfOk result (λ e. e ≡ first_under virtuals.now) }
    {
        let mut names = NameTable::new(alloc);
        for v in virtuals {
            names = names.with(alloc, v.copy(alloc)?)?;
        }
        Ok(Earlier {
            virtuals: names,
            heads: Items::new(alloc),
            names: NameTable::new(alloc),
        })
    }

    /// Adds the head of the next rule. Linear in the head's variables and in the length of their names. Fails only
    /// when out of memory, and the earlier heads are then dropped too.
    pub fn with(self, alloc: Global, head: RuleHead) -> Result<Earlier, NoMemory>
        ensures { IfOk result (λ e. e ≡ with_head self head) }
    {
        let Earlier {
            virtuals,
            mut heads,
            names,
        } = self;
        let names = names.with(alloc, head.name.copy(alloc)?)?;
        heads.push(KnownHead::of(alloc, head)?)?;
        Ok(Earlier {
            virtuals,
            heads,
            names,
        })
    }

    /// Returns the number of earlier rules.
    pub fn len(&self) -> usize
        ensures { result ≡ length self.now.heads }
    {
        self.heads.len()
    }

    /// Whether there is no earlier rule.
    pub fn is_empty(&self) -> bool
        ensures { result ≡ (length self.now.heads == 0) }
    {
        self.len() == 0
    }

    /// Returns the head of the rule with this number, if there is one.
    pub fn head(&self, rule: usize) -> Option<&RuleHead>
        ensures { option_copied result ≡ slice_get self.now.heads rule }
    {
        match self.heads.get(rule) {
            None => None,
            Some(known) => Some(known.head()),
        }
    }

    /// Whether a `virtual` line has the name. Takes one look-up.
    pub fn is_virtual(&self, name: &[u8]) -> bool
        ensures { result ≡ spec.is_virtual self.now.virtuals name.now }
    {
        self.virtuals.place(name).is_some()
    }

    /// Returns the number of the first rule with this name, if there is one. Takes one look-up.
    pub fn number_of(&self, name: &[u8]) -> Option<u32>
        requires { length self.now.heads < 2 ^ 32 }
        ensures { result ≡ known.number_from 0 name.now self.now.heads }
    {
        match self.names.place(name) {
            None => None,
            Some(i) => Some(i as u32),
        }
    }

    fn known_head(&self, name: &[u8]) -> Option<&KnownHead>
        ensures { option_copied result ≡ known.head_named name.now self.now.heads }
    {
        match self.names.place(name) {
            None => None,
            Some(i) => self.heads.get(i),
        }
    }

    /// Returns the variable x of the rule r, if there is one. Takes two look-ups.
    pub fn var_of(&self, r: &[u8], x: &[u8]) -> Option<&VarDecl>
        ensures { option_copied result ≡ known.var_of self.now.heads r.now x.now }
    {
        match self.known_head(r) {
            None => None,
            Some(known) => known.var(x),
        }
    }
}
