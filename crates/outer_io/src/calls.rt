// Calls that are counted, some of which fail by their numbers.
ghost use Rattle.std.specs.Prelude.{◌≡◌, ◌≤◌, IsTrue, false};
ghost use Rattle.outer_io.specs.Faults.{Rose, counted};
ghost use Rattle.outer_io.specs.Calls.{next_fails, after_call, no_calls};

use std::marker::Model;

/// The number of calls that were made, the numbers of those that fail, and the number of faults so far.
#[derive(Drop)]
pub struct CallCount {
    done: u64,
    fail: Vec<u64>,
    faults: u64,
}

impl Model for CallCount {
    ghost use Rattle.outer_io.specs.Calls.{Calls};

    ghost Value = { Calls };

    ghost view = { λ c. record { done = c.done; fail = c.fail.items; faults = c.faults } };
}

impl CallCount {
    pub fn new(fail: Vec<u64>) -> Self
        ensures { result ≡ no_calls fail.items }
    {
        CallCount {
            done: 0,
            fail,
            faults: 0,
        }
    }

    /// Returns how many calls were made.
    pub fn done(&self) -> u64
        ensures { result ≡ self.now.done }
    {
        self.done
    }

    /// Whether the next call is one that fails.
    pub fn next_fails(&self) -> bool
        ensures { result ≡ next_fails self.now }
    {
        self.fail.contains(&self.done)
    }

    /// Counts a call, and a fault if it failed. Each count saturates at its maximum.
    pub fn count(&mut self, failed: bool)
        ensures value { self.new ≡ after_call self.old failed }
        ensures later { self.old.faults ≤ self.new.faults }
        ensures rose { IsTrue failed → Rose self.old.faults self.new.faults }
        ensures same { failed ≡ false → self.new.faults ≡ self.old.faults }
    {
        self.done = one_more(self.done);
        if failed {
            self.faults = one_more(self.faults);
        }
    }
}

/// Returns the next value of a count, which saturates at its maximum.
pub fn one_more(count: u64) -> u64
    ensures { result ≡ counted count }
{
    count.saturating_add(1)
}
