// The numbers of keys in a list.
ghost use Rattle.std.specs.Prelude.{◌≡◌, ◌<◌, ◌≤◌, ℕ, Some, IfOk, IfSome, OnOk, length};
ghost use Rattle.edit_marks.specs.EditWalk.Keys.{number_of};
ghost use Rattle.edit_marks.specs.EditWalk.Numbered.{IsTable, found, number_in, with_number};

use c_terms::NoMemory;
use std::alloc::Global;
use std::collections::HashMap;
use std::marker::Model;

/// A list of keys in which each is looked up in constant time. Contracts see the list.
#[derive(Drop)]
pub struct Numbers {
    keys: Vec<u64>,
    places: Places,
}

impl Model for Numbers {
    ghost use Rattle.std.specs.Prelude.{List, ℕ};
    ghost use Rattle.edit_marks.specs.EditWalk.Numbered.{IsTable};

    ghost Value = { List ℕ };

    ghost view = { λ n. n.keys.items };

    ghost invariant = { λ n. IsTable n.keys.items n.places };
}

impl Numbers {
    /// Creates a table of these keys. Linear; keys less than twice their count are not hashed.
    pub fn of(alloc: Global, keys: Vec<u64>) -> Result<Numbers, NoMemory>
        ensures keys { IfOk result (λ numbers. numbers ≡ keys.items) }
    {
        let places = places_of(alloc, &keys)?;
        Ok(Numbers { keys, places })
    }

    /// Returns the number of a key, the first if the key occurs several times.
    pub fn find(&self, key: u64) -> Option<usize>
        ensures value { result ≡ number_of self.now key }
        ensures within { IfSome result (λ n. n < length self.now) }
    {
        let number = self.look_up(key);
        number
    }

    fn look_up(&self, key: u64) -> Option<usize>
        ensures { result ≡ number_of self.now key }
    {
        self.places.get(key)
    }
}

/// Numbers less than `count`, by keys.
#[derive(Drop)]
pub struct Places {
    count: usize,
    /// The numbers of small keys, by key. `count` means none.
    low: Vec<usize>,
    /// The numbers of all other keys.
    high: HashMap<u64, usize>,
}

impl Places {
    fn get(&self, key: u64) -> Option<usize>
        ensures { result ≡ found self.now key }
    {
        if key < self.low.len() as u64 {
            number_in(self.count, self.low[key as usize])
        } else {
            self.high.get(&key).copied()
        }
    }

    /// Gives a key a number.
    fn put(&mut self, key: u64, number: usize) -> Result<(), NoMemory>
        requires { number < self.old.count }
        ensures count { OnOk result (self.new.count ≡ self.old.count) }
        ensures found { OnOk result ((k : ℕ) →
            found self.new k ≡ with_number key number k (found self.old k)) }
    {
        if key < self.low.len() as u64 {
            self.low[key as usize] = number;
        } else {
            self.high.insert(key, number)?;
        }
        Ok(())
    }
}

fn number_in(count: usize, number: usize) -> Option<usize>
    ensures { result ≡ number_in count number }
{
    if number < count { Some(number) } else { None }
}

fn places_of(alloc: Global, keys: &[u64]) -> Result<Places, NoMemory>
    ensures { IfOk result (IsTable keys.now) }
{
    let count = keys.len();
    let mut places = Places {
        count,
        low: vec![in alloc; count; count.saturating_mul(2)]?,
        high: HashMap::new(alloc),
    };
    let mut at = count;
    while at > 0 {
        at -= 1;
        places.put(keys[at], at)?;
    }
    Ok(places)
}
