// The names that denote types.
ghost use Rattle.std.specs.Prelude.{◌≡◌, ◌<◌, ◌↔◌, Contains, IsTrue, IsOk, IfOk, OnOk, OnErr, slice_index_or, []};
ghost use Rattle.c_terms.specs.Names.{has_name, with_name, listed_names};

use crate::{NoMemory, Text};
use indexmap::IndexSet;
use std::alloc::Global;
use std::marker::Model;

/// The number of names that are known without a declaration.
const LISTED: usize = 30;

/// Returns a type of C's library or of kernels that is known without a declaration.
fn listed_name(i: usize) -> &'static [u8]
    requires { i < LISTED }
    ensures { result.now ≡ slice_index_or listed_names i [] }
{
    match i {
        0 => b"size_t",
        1 => b"ssize_t",
        2 => b"ptrdiff_t",
        3 => b"off_t",
        4 => b"loff_t",
        5 => b"pid_t",
        6 => b"dev_t",
        7 => b"time_t",
        8 => b"gfp_t",
        9 => b"bool",
        10 => b"FILE",
        11 => b"va_list",
        12 => b"intptr_t",
        13 => b"uintptr_t",
        14 => b"int8_t",
        15 => b"int16_t",
        16 => b"int32_t",
        17 => b"int64_t",
        18 => b"uint8_t",
        19 => b"uint16_t",
        20 => b"uint32_t",
        21 => b"uint64_t",
        22 => b"s8",
        23 => b"s16",
        24 => b"s32",
        25 => b"s64",
        26 => b"u8",
        27 => b"u16",
        28 => b"u32",
        _ => b"u64",
    }
}

/// Names that denote types, each once, in the order in which they were added.
#[derive(Drop)]
pub struct Names {
    set: IndexSet<Vec<u8>>,
}

impl Model for Names {
    ghost use Rattle.std.specs.Prelude.{List, ℕ, map};

    ghost Value = { List (List ℕ) };

    ghost view = { λ names. map (λ name. name.items) names.set.keys };
}

impl Names {
    /// Whether the name is there. One look-up; allocates nothing.
    pub fn has(&self, name: &[u8]) -> bool
        ensures value { result ≡ has_name self.now name.now }
        ensures member { IsTrue result ↔ Contains self.now name.now }
    {
        self.set.contains(name)
    }

    /// Adds a new name at the end. A known one changes nothing and allocates nothing. Linear in the name.
    pub fn add(&mut self, alloc: Global, name: Text) -> Result<(), NoMemory>
        ensures ok { OnOk result (self.new ≡ with_name self.old name) }
        ensures err { OnErr result (self.new ≡ self.old) }
        ensures known_succeeds { Contains self.old name → IsOk result }
    {
        if self.has(name.as_bytes()) {
            return Ok(());
        }
        let key = Vec::from_slice(alloc, name.as_bytes())?;
        self.set.insert(key)?;
        Ok(())
    }

    /// Returns the names that are known without a declaration.
    pub fn listed(alloc: Global) -> Result<Names, NoMemory>
        ensures names { IfOk result (λ names. names ≡ listed_names) }
    {
        let mut names = Names {
            set: IndexSet::new(alloc),
        };
        for i in 0..LISTED {
            names.add(alloc, Text::from_bytes(alloc, listed_name(i))?)?;
        }
        Ok(names)
    }
}
