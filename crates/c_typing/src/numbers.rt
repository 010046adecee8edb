// Numbers by name, found by a hash.
ghost use Rattle.std.specs.Prelude.{◌≡◌, ◌<◌, ℕ, List, OnOk, OnErr, if◌then◌else◌};
ghost use Rattle.c_terms.specs.Same.{same_bytes};
ghost use Rattle.c_typing.specs.Numbers.{no_numbers, number_of};

use c_terms::NoMemory;
use indexmap::IndexSet;
use std::alloc::Global;
use std::marker::Model;

/// Numbers by name. A name that was given none has 0.
#[derive(Drop)]
pub(crate) struct Numbers {
    names: IndexSet<Vec<u8>>,
    numbers: Vec<usize>,
}

impl Model for Numbers {
    ghost use Rattle.std.specs.Prelude.{◌≡◌, map, length};
    ghost use Rattle.c_typing.specs.Numbers.{Numbered};

    ghost Value = { Numbered };

    ghost view = { λ n. record { names = map (λ k. k.items) n.names.keys; numbers = n.numbers.items } };

    ghost invariant = { λ n. length n.numbers.items ≡ length n.names.keys };
}

impl Numbers {
    /// Returns numbers that no name has. Allocates nothing.
    pub(crate) fn new(alloc: Global) -> Numbers
        ensures { result ≡ no_numbers }
    {
        Numbers {
            names: IndexSet::new(alloc),
            numbers: Vec::new(alloc),
        }
    }

    /// Returns the number of a name, or 0 if it has none. One look-up.
    pub(crate) fn get(&self, name: &[u8]) -> usize
        ensures { result ≡ number_of self.now name.now }
    {
        match self.names.get_index_of(name) {
            Some(i) => self.numbers[i],
            None => 0,
        }
    }

    /// Gives a name a number. Two look-ups; linear in the name.
    pub(crate) fn put(&mut self, alloc: Global, name: &[u8], number: usize) -> Result<(), NoMemory>
        ensures ok { OnOk result ((x : List ℕ) → number_of self.new x
            ≡ (if same_bytes x name.now then number else number_of self.old x)) }
        ensures err { OnErr result (self.new ≡ self.old) }
    {
        match self.names.get_index_of(name) {
            Some(i) => {
                self.numbers[i] = number;
                Ok(())
            }
            None => {
                let key = Vec::from_slice(alloc, name)?;
                self.numbers.reserve(1)?;
                self.names.insert(key)?;
                self.numbers.push_reserved(number);
                Ok(())
            }
        }
    }

    /// Gives a name that has a number another one. One look-up; allocates nothing.
    pub(crate) fn set(&mut self, name: &[u8], number: usize)
        requires { 0 < number_of self.old name.now }
        ensures { (x : List ℕ) → number_of self.new x ≡ (if same_bytes x name.now then number else number_of self.old x) }
    {
        match self.names.get_index_of(name) {
            Some(i) => self.numbers[i] = number,
            None => {}
        }
    }
}
