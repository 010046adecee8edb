// The acts of a run, one at a time.
ghost use Rattle.std.specs.Prelude.{◌≡◌, ◌≤◌, List, ℕ, Option, IfOk, OnOk, IfErr};
ghost use Rattle.outer_io.specs.Files.{Files, stored, grown};
ghost use Rattle.outer_io.specs.Faults.{counted};
ghost use Rattle.run_acts.specs.Acts.{Load, Store, Print, Report, observed};
ghost use Rattle.run_acts.specs.Breaks.{Breaks, counts};
ghost use Rattle.run_acts.specs.Loaded.{Gives, Found};
ghost use Rattle.run_acts.specs.Statuses.{status_of};

use crate::lines::{cannot_print, cannot_read, cannot_write};
use crate::status::Stopped;
use outer_io::{Loads, PutFault, Shelf, ShelfFault, Sink};
use std::alloc::Global;

/// What is stored under a name.
#[derive(Drop)]
pub enum Loaded {
    /// These bytes, no more than the limit.
    Bytes(Vec<u8>),
    /// More bytes than the limit.
    TooLong,
    /// Nothing.
    Absent,
}

/// Loads what is stored under a name, if it is no longer than `limit` bytes. If the load fails, the line
/// `spatch: NAME: cannot read` is put on the error output.
pub fn load<S: Loads, E: Sink>(
    alloc: Global,
    shelf: &mut S,
    err: &mut E,
    name: &str,
    limit: u64,
) -> Result<Loaded, Stopped>
    ensures same { S.holds shelf.new ≡ S.holds shelf.old }
    ensures no_store { S.stores shelf.new ≡ S.stores shelf.old }
    ensures loaded { IfOk result (λ loaded. (under : Option (List ℕ))
        × (Found (S.holds shelf.old) name.now under × Gives under limit loaded)) }
    ensures ok_err { OnOk result (E.written err.new ≡ E.written err.old) }
    ensures later { S.faults shelf.old ≤ S.faults shelf.new }
    ensures later_err { E.faults err.old ≤ E.faults err.new }

    // The output, which the load doesn't touch, may be anything.
    ensures stopped { IfErr result (λ stopped. (out : Option (List ℕ)) (o o' : ℕ) →
        Breaks (counts (S.faults shelf.old) o (E.faults err.old))
        (counts (S.faults shelf.new) o' (E.faults err.new)) (Load name.now limit)
        (observed (S.holds shelf.old) (S.stores shelf.old) out (E.written err.old))
        (observed (S.holds shelf.new) (S.stores shelf.new) out (E.written err.new)) (status_of stopped)) }
{
    match shelf.load(name, limit) {
        Ok(bytes) => Ok(Loaded::Bytes(bytes)),
        Err(ShelfFault::TooLong) => Ok(Loaded::TooLong),
        Err(ShelfFault::Absent) => Ok(Loaded::Absent),
        Err(ShelfFault::NoMemory) => Err(Stopped::NoMemory),
        Err(ShelfFault::Failed) => {
            let line = cannot_read(alloc, name)?;
            match err.put(&line) {
                Ok(()) => Err(Stopped::CannotRead),
                Err(PutFault::NoMemory) => Err(Stopped::NoMemory),
                Err(PutFault::Failed) => Err(Stopped::CannotWrite),
            }
        }
    }
}

/// Stores bytes under a name. If the store fails, the line `spatch: NAME: cannot write` is put on the error output, if memory
/// allows.
pub fn store<S: Shelf, E: Sink>(
    alloc: Global,
    shelf: &mut S,
    err: &mut E,
    name: &str,
    bytes: &[u8],
) -> Result<(), Stopped>
    ensures ok { OnOk result (S.holds shelf.new ≡ stored (S.holds shelf.old) name.now bytes.now) }
    ensures counts { OnOk result (S.stores shelf.new ≡ counted (S.stores shelf.old)) }
    ensures ok_err { OnOk result (E.written err.new ≡ E.written err.old) }
    ensures later { S.faults shelf.old ≤ S.faults shelf.new }
    ensures later_err { E.faults err.old ≤ E.faults err.new }
    ensures stopped { IfErr result (λ stopped. (out : Option (List ℕ)) (o o' : ℕ) →
        Breaks (counts (S.faults shelf.old) o (E.faults err.old))
        (counts (S.faults shelf.new) o' (E.faults err.new)) (Store name.now bytes.now)
        (observed (S.holds shelf.old) (S.stores shelf.old) out (E.written err.old))
        (observed (S.holds shelf.new) (S.stores shelf.new) out (E.written err.new)) (status_of stopped)) }
{
    match shelf.store(name, bytes) {
        Ok(()) => Ok(()),
        Err(ShelfFault::NoMemory) => Err(Stopped::NoMemory),
        Err(ShelfFault::Failed | ShelfFault::TooLong | ShelfFault::Absent) => {
            // The line is left out if memory is refused.
            if let Ok(line) = cannot_write(alloc, name) {
                let _ = err.put(&line);
            }
            Err(Stopped::CannotWrite)
        }
    }
}

/// Puts bytes on the output. If the put fails, the line `spatch: cannot print` is put on the error output, and a prefix of the
/// bytes may have been written.
pub fn print<O: Sink, E: Sink>(out: &mut O, err: &mut E, bytes: &[u8]) -> Result<(), Stopped>
    ensures ok { OnOk result (O.written out.new ≡ grown (O.written out.old) bytes.now) }
    ensures ok_err { OnOk result (E.written err.new ≡ E.written err.old) }
    ensures later { O.faults out.old ≤ O.faults out.new }
    ensures later_err { E.faults err.old ≤ E.faults err.new }
    ensures stopped { IfErr result (λ stopped. (files : Option Files) (stores s s' : ℕ) →
        Breaks (counts s (O.faults out.old) (E.faults err.old))
        (counts s' (O.faults out.new) (E.faults err.new)) (Print bytes.now)
        (observed files stores (O.written out.old) (E.written err.old))
        (observed files stores (O.written out.new) (E.written err.new)) (status_of stopped)) }
{
    match out.put(bytes) {
        Ok(()) => Ok(()),
        Err(PutFault::NoMemory) => Err(Stopped::NoMemory),
        Err(PutFault::Failed) => {
            let _ = err.put(cannot_print().as_bytes());
            Err(Stopped::CannotWrite)
        }
    }
}

/// Puts a line on the error output. If the put fails, a prefix of the line may have been written.
pub fn report<E: Sink>(err: &mut E, line: &[u8]) -> Result<(), Stopped>
    ensures ok { OnOk result (E.written err.new ≡ grown (E.written err.old) line.now) }
    ensures later { E.faults err.old ≤ E.faults err.new }
    ensures stopped { IfErr result
        (λ stopped. (files : Option Files) (out : Option (List ℕ)) (stores s o s' o' : ℕ) →
        Breaks (counts s o (E.faults err.old)) (counts s' o' (E.faults err.new)) (Report line.now)
        (observed files stores out (E.written err.old))
        (observed files stores out (E.written err.new)) (status_of stopped)) }
{
    match err.put(line) {
        Ok(()) => Ok(()),
        Err(PutFault::NoMemory) => Err(Stopped::NoMemory),
        Err(PutFault::Failed) => Err(Stopped::CannotWrite),
    }
}
