// Shelves, which keep bytes under names.
ghost use Rattle.std.specs.Prelude.{◌≡◌, ◌<◌, ◌≤◌, ℕ, List, Option, Some, None, length, IfOk, IfSome, IsSomeAnd, IsTrue, IsErr, OnOk, OnErr, IsErrOf, Bool};
ghost use Rattle.std.specs.FinMap.{get};
ghost use Rattle.outer_io.specs.Files.{Files, stored};
ghost use Rattle.outer_io.specs.Faults.{HasCause, counted};

/// Why a load or a store did not do what was asked. Only `Failed` must have its cause in the count
/// of faults; a shelf may count the other errors too, as `FileShelf` does.
#[derive(Clone, Copy, Debug, PartialEq, Eq)]
pub enum ShelfFault {
    /// The shelf failed, and its count of faults rose. This takes precedence over the next two.
    Failed,
    /// There are more bytes than the limit under the name.
    TooLong,
    /// There is nothing under the name. Only a shelf that reveals its content returns this.
    Absent,
    /// Out of memory. This is the one error that a caller cannot foresee.
    NoMemory,
}

/// Bytes under names, which can be loaded. Code that uses this trait alone can't store.
///
/// A shelf may reveal its content. It counts its faults and its stores, so that a store leaves a
/// trace even if it changes no byte.
pub trait Loads {
    /// The bytes under each name, if the shelf reveals them.
    ghost holds: { Self → Option Files };

    /// How many stores there were, done or failed. A store that ran out of memory is not counted.
    ghost stores: { Self → ℕ };

    /// How often the shelf has failed. The count never falls.
    ghost faults: { Self → ℕ };

    /// Whether there is a pipe, a device or a socket under a name. A load of one may wait for
    /// others, or never end. A shelf that reveals its content has none.
    fn is_special(&self, name: &str) -> bool
        ensures untold { IsTrue result → holds self.now ≡ None };

    /// Returns the bytes under a name, if there are at most `limit` of them.
    ///
    /// If the shelf reveals its content, the clauses leave one result besides `Failed` and
    /// `NoMemory`: the bytes, `Absent` if there are none, or `TooLong` if there are more than the
    /// limit.
    fn load(&mut self, name: &str, limit: u64) -> Result<Vec<u8>, ShelfFault>
        ensures same { holds self.new ≡ holds self.old }
        ensures no_store { stores self.new ≡ stores self.old }
        ensures bytes { IfOk result (λ bytes. IfSome (holds self.old)
            (λ files. get files name.now ≡ Some bytes.items)) }
        ensures within { IfOk result (λ bytes. length bytes.items ≤ limit) }
        ensures absent { IsErrOf result ShelfFault.Absent → IsSomeAnd (holds self.old)
            (λ files. get files name.now ≡ None) }
        ensures too_long { IsErrOf result ShelfFault.TooLong → IfSome (holds self.old)
            (λ files. IsSomeAnd (get files name.now) (λ bytes. limit < length bytes)) }
        ensures cause { HasCause ShelfFault.Failed (faults self.old) (faults self.new) result };
}

/// Bytes under names, which can be loaded and stored.
pub trait Shelf: Loads {
    /// Whether another program changed what is under a name after it was loaded or stored here, if
    /// the shelf reveals that.
    ghost is_changed: { Self → List ℕ → Bool };

    /// Puts the bytes under a name, in place of those that were there. All other names keep theirs.
    ///
    /// What another program changed is not stored on. After an `Err` the shelf holds what it held,
    /// if it reveals that. A store is counted, done or failed; if it runs out of memory, nothing is
    /// done and nothing is counted.
    fn store(&mut self, name: &str, bytes: &[u8]) -> Result<(), ShelfFault>
        ensures ok { OnOk result
            (Self.holds self.new ≡ stored (Self.holds self.old) name.now bytes.now) }
        ensures err { OnErr result (Self.holds self.new ≡ Self.holds self.old) }
        ensures counts_ok { OnOk result (Self.stores self.new ≡ counted (Self.stores self.old)) }
        ensures counts_failed { IsErrOf result ShelfFault.Failed →
            Self.stores self.new ≡ counted (Self.stores self.old) }
        ensures no_memory { IsErrOf result ShelfFault.NoMemory →
            Self.stores self.new ≡ Self.stores self.old }
        ensures changed { IsTrue (Self.is_changed self.old name.now) → IsErr result }
        ensures not_absent { IsErrOf result ShelfFault.Absent → ⊥ }
        ensures not_too_long { IsErrOf result ShelfFault.TooLong → ⊥ }
        ensures cause { HasCause ShelfFault.Failed
            (Self.faults self.old) (Self.faults self.new) result };
}
