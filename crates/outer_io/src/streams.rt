// The standard streams as sinks. They reveal no content.
ghost use Rattle.std.specs.Prelude.{◌≡◌, ◌≢◌, ℕ, None, [], take, IsTrue, IsOk, OnOk, IfOk, IfErr, OnErr, IsErrOf};
ghost use Rattle.std.specs.Io.{WritesAtMost};
ghost use Rattle.std.specs.Io.KnownBytes.{Appends, Keeps};
ghost use Rattle.std.specs.IoError.{error_kind};
ghost use Rattle.outer_io.specs.Faults.{counted, HasCause};

use crate::calls::one_more;
use crate::{PutFault, Sink};
use std::io;
use std::io::{ErrorKind, Write};
use std::marker::Model;

/// A stream as a sink. It reveals no content. Contracts see the writer and the count of faults, and
/// say of every put what it appends to a writer that reveals its bytes.
///
/// The count rises at each `Failed`: a write that fails, or one that accepts nothing of a piece
/// that is not empty. A write that is interrupted by a signal is retried. A put is linear in its
/// piece and allocates nothing.
#[derive(Drop)]
pub struct StreamSink<W> {
    writer: W,
    faults: u64,
}

/// The standard output, over a writer such as the runtime's `stdout()`.
pub type OutSink<W> = StreamSink<W>;

/// The standard error, over a writer such as the runtime's `stderr()`.
pub type ErrSink<W> = StreamSink<W>;

impl<W> Model for StreamSink<W> {
    ghost use Rattle.outer_io.specs.Adapters.{StreamState};

    ghost Value = { StreamState W };

    ghost view = { λ s. record { writer = s.writer; faults = s.faults } };
}

impl<W: Write> StreamSink<W> {
    /// Returns the sink over this writer, with no fault so far.
    pub fn new(writer: W) -> StreamSink<W>
        ensures writer { result.writer ≡ writer }
        ensures faults { result.faults ≡ 0 }
    {
        StreamSink { writer, faults: 0 }
    }

    /// Returns the writer, with all that was put.
    pub fn into_writer(self) -> W
        ensures writer { result ≡ self.writer }
    {
        let StreamSink { writer, faults: _ } = self;
        writer
    }
}

impl<W: Write> Sink for StreamSink<W> {
    ghost written = { λ _. None };

    ghost faults = { λ s. s.faults };

    fn put(&mut self, bytes: &[u8]) -> Result<(), PutFault>
        // If the writer reveals its bytes: all of the piece was appended, or a prefix.
        ensures whole { OnOk result
            (Appends (W.contents self.old.writer) (W.contents self.new.writer) bytes.now) }
        ensures front { (n : ℕ)
            × Appends (W.contents self.old.writer) (W.contents self.new.writer) (take n bytes.now) }

        ensures empty { bytes.now ≡ [] → IsOk result }
        ensures cause { HasCause PutFault.Failed self.old.faults self.new.faults result }
        ensures failed_only { OnErr result (IsErrOf result PutFault.Failed) }
        ensures counts { OnErr result (self.new.faults ≡ counted self.old.faults) }
        ensures calm { OnOk result (self.new.faults ≡ self.old.faults) }
    {
        if write_whole(&mut self.writer, bytes) {
            return Ok(());
        }
        self.faults = one_more(self.faults);
        Err(PutFault::Failed)
    }
}

/// Writes all the bytes, and returns whether it did. A write that fails or accepts nothing ends it;
/// a prefix of the bytes is then written.
pub fn write_whole<W: Write>(writer: &mut W, bytes: &[u8]) -> bool
    ensures whole { IsTrue result →
        Appends (W.contents writer.old) (W.contents writer.new) bytes.now }
    ensures front { (n : ℕ)
        × Appends (W.contents writer.old) (W.contents writer.new) (take n bytes.now) }
    ensures empty { bytes.now ≡ [] → IsTrue result }
{
    let mut rest = bytes;
    while !rest.is_empty() {
        match write_some(writer, rest) {
            Ok(0) => return false,
            Err(_) => return false,
            Ok(count) => rest = &rest[count..],
        }
    }
    true
}

/// Writes once, retrying if a signal interrupts the write.
fn write_some<W: Write>(writer: &mut W, bytes: &[u8]) -> io::Result<usize>
    ensures bound { WritesAtMost result bytes.now }
    ensures ok { IfOk result
        (λ count. Appends (W.contents writer.old) (W.contents writer.new) (take count bytes.now)) }
    ensures err { OnErr result (Keeps (W.contents writer.old) (W.contents writer.new)) }
    ensures retried { IfErr result (λ error. error_kind error ≢ ErrorKind.Interrupted) }
{
    for _ in 0..u64::MAX {
        match writer.write(bytes) {
            Ok(count) => return Ok(count),
            Err(error) if error.kind() == ErrorKind::Interrupted => {}
            Err(error) => return Err(error),
        }
    }
    Err(io::Error::from(ErrorKind::TimedOut))
}
