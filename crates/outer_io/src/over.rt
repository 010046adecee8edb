// A file that is overwritten in place.
ghost use Rattle.std.specs.Prelude.{◌≡◌, length, IfOk, IfSome, IsErrOf};

use crate::ShelfFault;
use crate::files::read_whole;
use crate::streams::write_whole;
use std::alloc::Global;
use std::fs::OpenFile;
use std::io::{Read, Seek, SeekFrom, Write};

/// Returns the bytes of an open file of this length, from its beginning on. The error is `Failed`
/// if it has fewer or more.
pub fn read_old<F: Read>(alloc: Global, file: &mut F, len: u64) -> Result<Vec<u8>, ShelfFault>
    ensures bytes { IfOk result (λ bytes. IfSome (F.remaining file.old) (λ left. bytes.items ≡ left)) }
    ensures len { IfOk result (λ bytes. length bytes.items ≡ len) }
    ensures not_absent { IsErrOf result ShelfFault.Absent → ⊥ }
    ensures not_too_long { IsErrOf result ShelfFault.TooLong → ⊥ }
{
    match read_whole(alloc, file, len, len) {
        Ok(bytes) if bytes.len() as u64 == len => Ok(bytes),
        Err(ShelfFault::NoMemory) => Err(ShelfFault::NoMemory),
        _ => Err(ShelfFault::Failed),
    }
}

/// Overwrites the bytes of an open file, and returns whether it did. If a call fails, the old bytes
/// are restored.
///
/// The bytes are written by one call if the system takes them at once, and the file is truncated
/// after that, so that a program that ends in between leaves as few states as possible.
pub fn write_over<F: Write + Seek + OpenFile>(file: &mut F, old: &[u8], bytes: &[u8]) -> bool {
    if put_whole(file, bytes, old.len() > bytes.len()) {
        return true;
    }
    let _ = put_whole(file, old, true);
    false
}

/// Makes these the bytes of an open file, and returns whether it did. A file that has more is truncated.
fn put_whole<F: Write + Seek + OpenFile>(file: &mut F, bytes: &[u8], has_more: bool) -> bool {
    file.seek(SeekFrom::Start(0)).is_ok()
        && write_whole(file, bytes)
        && (!has_more || file.set_len(bytes.len() as u64).is_ok())
        && file.sync_all().is_ok()
}
