// What is found in one item.
ghost use Rattle.std.specs.Prelude.{◌≡◌, ◌<◌, ◌≤◌, ◌+◌, ◌∷◌, ◌++◌, [], Err, IfOk};
ghost use Rattle.wit_forest.specs.WitOrder.Sizes.{forest_size, most_nodes};
ghost use Rattle.rule_chain.specs.RuleWitnesses.Jobs.{touches_and_binds};

use crate::rule_witnesses::fault::ItemFault;
use smpl_patch::{RuleWitness, Witness};
use sqlite_items::Items;
use std::alloc::Global;
use wit_forest::{MOST_NODES, within};

/// Witnesses, and how many more touches and binds they may have.
#[derive(Drop)]
pub struct Found {
    pub witnesses: Items<RuleWitness>,
    left: u32,
    ghost budget: { left + touches_and_binds witnesses ≡ most_nodes },
}

fn left_after(trees: &[Witness], left: u32) -> Result<u32, ItemFault>
    ensures left { IfOk result (λ now. now + forest_size trees.now ≡ left) }
    ensures too_many { result ≡ Err ItemFault.TooMany → left < forest_size trees.now }
{
    match within(trees, left) {
        Some(now) => Ok(now),
        None => Err(ItemFault::TooMany),
    }
}

impl Found {
    /// Returns no witnesses, with the whole budget left.
    pub fn none(alloc: Global) -> Found
        ensures none { result.witnesses ≡ [] }
    {
        Found {
            witnesses: Items::new(alloc),
            left: MOST_NODES,
        }
    }

    /// Adds one witness.
    pub fn with(self, witness: RuleWitness) -> Result<Found, ItemFault>
        ensures added { IfOk result (λ now. now.witnesses ≡ self.witnesses ++ witness ∷ []) }
        ensures too_many { result ≡ Err ItemFault.TooMany → most_nodes < touches_and_binds (self.witnesses ++ witness ∷ []) }
    {
        let Found {
            mut witnesses,
            left,
        } = self;
        let left = left_after(witness.forest.as_slice(), left)?;
        witnesses.push(witness)?;
        Ok(Found { witnesses, left })
    }

    /// Returns the witnesses.
    pub fn into_items(self) -> Items<RuleWitness>
        ensures items { result ≡ self.witnesses }
        ensures few { touches_and_binds result ≤ most_nodes }
    {
        let Found { witnesses, left: _ } = self;
        witnesses
    }
}
