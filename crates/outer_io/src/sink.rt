// Sinks, which take bytes piece by piece.
ghost use Rattle.std.specs.Prelude.{◌≡◌, ℕ, List, Option, [], take, IsOk, OnOk, IsErrOf};
ghost use Rattle.outer_io.specs.Files.{grown};
ghost use Rattle.outer_io.specs.Faults.{HasCause};

/// Why a put did not append its piece.
#[derive(Clone, Copy, Debug, PartialEq, Eq)]
pub enum PutFault {
    /// The sink failed, and its count of faults rose. A prefix of the piece may have been appended.
    Failed,
    /// Out of memory; nothing was appended.
    NoMemory,
}

/// Bytes that are appended to. A sink may reveal what was written, and counts its faults.
pub trait Sink {
    /// The bytes that were put, if the sink reveals them.
    ghost written: { Self → Option (List ℕ) };

    /// How often the sink has failed. The count never falls.
    ghost faults: { Self → ℕ };

    /// Appends a piece. An empty piece always succeeds.
    fn put(&mut self, bytes: &[u8]) -> Result<(), PutFault>
        ensures ok { OnOk result (written self.new ≡ grown (written self.old) bytes.now) }

        // A failed put leaves a prefix of the piece.
        ensures failed { IsErrOf result PutFault.Failed → (n : ℕ)
            × (written self.new ≡ grown (written self.old) (take n bytes.now)) }
        ensures no_memory { IsErrOf result PutFault.NoMemory → written self.new ≡ written self.old }
        ensures no_memory_no_fault { IsErrOf result PutFault.NoMemory →
            faults self.new ≡ faults self.old }
        ensures empty { bytes.now ≡ [] → IsOk result }
        ensures cause { HasCause PutFault.Failed (faults self.old) (faults self.new) result };
}
