// Blocks with their numbers.
ghost use Rattle.std.specs.Prelude.{◌≡◌, nat_eq, IfOk};
ghost use Rattle.std.specs.HashMap.{get};
ghost use Rattle.ctl_table.specs.Blocks.{index_of};
ghost use Rattle.ctl_table.specs.Numbers.{ArePlaces};

use std::alloc::{AllocError, Global};
use std::collections::HashMap;
use std::marker::Model;

/// The atoms of the opening braces of a body's blocks, in the order of their hidden variables, with the first place of
/// each. Contracts see the list.
#[derive(Drop)]
pub struct Blocks {
    atoms: Vec<u32>,
    places: HashMap<u32, usize>,
}

impl Model for Blocks {
    ghost use Rattle.std.specs.Prelude.{List, ℕ, nat_eq};
    ghost use Rattle.std.specs.HashMap.{get};
    ghost use Rattle.ctl_table.specs.Numbers.{ArePlaces};

    ghost Value = { List ℕ };

    ghost view = { λ b. b.atoms.items };

    ghost invariant = { λ b. ArePlaces b.atoms.items (get nat_eq b.places) };
}

/// Returns the first place of each atom: places are inserted from the last on, and each replaces a later one of the
/// same atom.
fn places_of(alloc: Global, atoms: &[u32]) -> Result<HashMap<u32, usize>, AllocError>
    ensures { IfOk result (λ places. ArePlaces atoms.now (get nat_eq places)) }
{
    let mut places = HashMap::new(alloc);
    let mut i = atoms.len();
    while i > 0 {
        i -= 1;
        places.insert(atoms[i], i)?;
    }
    Ok(places)
}

impl Blocks {
    /// Returns the blocks whose opening braces are these atoms. Takes linear time if no hashes collide.
    pub fn of(alloc: Global, atoms: Vec<u32>) -> Result<Blocks, AllocError>
        ensures { IfOk result (λ blocks. blocks ≡ atoms.items) }
    {
        let places = places_of(alloc, atoms.as_slice())?;
        Ok(Blocks { atoms, places })
    }

    /// Returns the number of the first block with this opening brace, or the number of blocks if none has it. Takes one
    /// look-up; allocates nothing.
    pub fn number_of(&self, atom: u32) -> usize
        ensures { result ≡ index_of atom self.now }
    {
        match self.places.get(&atom) {
            Some(place) => *place,
            None => self.atoms.len(),
        }
    }
}
