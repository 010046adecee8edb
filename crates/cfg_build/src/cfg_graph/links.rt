// Short lists of node numbers.
ghost use Rattle.std.specs.Prelude.{◌≡◌, ◌≤◌, [], ◌∷◌};

use std::marker::Model;

#[derive(Clone, Copy)]
struct Few {
    numbers: [u32; 2],
    len: u8,
    ghost within: { len ≤ 2 },
}

#[derive(Drop)]
enum Kept {
    Few(Few),
    Many(Vec<u32>),
}

/// A list of node numbers. Up to two are stored inline, which is enough for nearly every node.
#[derive(Drop)]
pub struct Links {
    kept: Kept,
}

impl Model for Links {
    ghost use Rattle.std.specs.Prelude.{List, ℕ};
    ghost use Rattle.cfg_build.specs.CfgGraph.Kept.{kept_numbers};

    ghost Value = { List ℕ };

    ghost view = { λ l. kept_numbers l.kept };
}

impl Links {
    /// Returns an empty list. Takes no memory.
    pub fn none() -> Links
        ensures numbers { result ≡ [] }
    {
        Links {
            kept: Kept::Few(Few {
                numbers: [0, 0],
                len: 0,
            }),
        }
    }

    /// Returns a list of one number. Takes no memory.
    pub fn one(number: u32) -> Links
        ensures numbers { result ≡ number ∷ [] }
    {
        Links {
            kept: Kept::Few(Few {
                numbers: [number, 0],
                len: 1,
            }),
        }
    }

    /// Returns a list of two numbers in this order. Takes no memory.
    pub fn two(first: u32, second: u32) -> Links
        ensures numbers { result ≡ first ∷ second ∷ [] }
    {
        Links {
            kept: Kept::Few(Few {
                numbers: [first, second],
                len: 2,
            }),
        }
    }

    /// Returns a list of these numbers. Takes no memory.
    pub fn from_vec(numbers: Vec<u32>) -> Links
        ensures numbers { result ≡ numbers.items }
    {
        Links {
            kept: Kept::Many(numbers),
        }
    }

    /// Returns the numbers. Takes no memory.
    pub fn as_slice(&self) -> &[u32]
        ensures numbers { result.now ≡ self.now }
    {
        match &self.kept {
            Kept::Few(few) => &few.numbers[..few.len as usize],
            Kept::Many(numbers) => numbers.as_slice(),
        }
    }
}
