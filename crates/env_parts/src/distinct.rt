// Different environments, in the order in which they were first added.
ghost use Rattle.std.specs.Prelude.{◌≡◌, [], true, IfOk, IsSomeAnd, slice_get};
ghost use Rattle.env_parts.specs.Parts as spec;
ghost use Rattle.env_parts.specs.Places.{place_in};

use crate::key::Key;
use c_terms::NoMemory;
use smpl_terms::Env;
use sqlite_items::Items;
use std::alloc::Global;
use std::collections::BTreeMap;
use std::marker::Model;

/// Environments, each once, in the order in which they were first added. Contracts see the list.
#[derive(Drop)]
pub struct DistinctEnvs {
    envs: Items<Env>,
    places: BTreeMap<Key, usize>,
}

impl Model for DistinctEnvs {
    ghost use Rattle.std.specs.Coded.{codes};
    ghost use Rattle.c_terms.specs.contracts.tree.Tree as tree;
    ghost use Rattle.std.specs.Prelude.{List};
    ghost use Rattle.env_parts.specs.Parts.{Pairs};
    ghost use Rattle.env_parts.specs.Places.{ArePlaces};

    ghost Value = { List Pairs };

    ghost coded = { Prim.hlevel (codes, tree.the_row.coded) };

    ghost view = { λ a. a.envs };

    ghost invariant = { λ a. ArePlaces a.places.entries a.envs };
}

/// Different environments, and the index of one of them.
#[derive(Drop)]
pub struct Placed {
    pub envs: DistinctEnvs,
    pub place: usize,
}

impl DistinctEnvs {
    /// Returns an empty list. Takes no memory.
    pub fn new(alloc: Global) -> DistinctEnvs
        ensures envs { result ≡ [] }
    {
        DistinctEnvs {
            envs: Items::new(alloc),
            places: BTreeMap::new(alloc),
        }
    }

    fn place(&self, key: &Key) -> Option<usize>
        ensures { result ≡ place_in key.now.env self.now }
    {
        self.places.get(key).copied()
    }

    /// Returns the environments, with this one appended unless it is there, and the index at which it is found. Costs a look-up
    /// in a search tree, which compares it with as many environments as the tree is deep.
    pub fn with(self, alloc: Global, env: Env) -> Result<Placed, NoMemory>
        ensures envs { IfOk result (λ r. r.envs ≡ spec.with_new self env) }
        ensures place { IfOk result (λ r. IsSomeAnd (slice_get r.envs r.place) (λ e. spec.same_env env e ≡ true)) }
    {
        let key = Key {
            env: env.copy(alloc)?,
        };
        if let Some(place) = self.place(&key) {
            return Ok(Placed { envs: self, place });
        }
        let DistinctEnvs {
            mut envs,
            mut places,
        } = self;
        let place = envs.len();
        places.insert(key, place)?;
        envs.push(env)?;
        Ok(Placed {
            envs: DistinctEnvs { envs, places },
            place,
        })
    }

    /// Returns the environments, in that order.
    pub fn into_envs(self) -> Items<Env>
        ensures envs { result ≡ self }
    {
        self.envs
    }
}
