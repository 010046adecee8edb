// Texts, and the error of running out of memory.
ghost use Rattle.std.specs.Prelude.{◌≡◌, ◌≤◌, length, take, IfOk};

use std::alloc::{AllocError, AllocFailed, Global};
use std::marker::Model;
use std::sync::ArcSlice;

/// The error of running out of memory.
#[derive(Clone, Copy, Debug, PartialEq, Eq)]
pub struct NoMemory;

impl From<AllocError> for NoMemory {
    fn from(_: AllocError) -> Self {
        NoMemory
    }
}

impl<T: Drop> From<AllocFailed<T>> for NoMemory {
    fn from(_: AllocFailed<T>) -> Self {
        NoMemory
    }
}

/// The number of bytes that a text keeps in itself, which is enough for most tokens.
const INLINE: usize = 15;

#[derive(Clone, Copy)]
struct Short {
    bytes: [u8; INLINE],
    len: u8,
    ghost within: { len ≤ 15 },
}

#[derive(Drop)]
enum Kept {
    Short(Short),
    Long(ArcSlice<u8>),
}

/// A list of bytes, which need not be UTF-8. Up to 15 bytes are kept in the value itself. A longer
/// text is allocated once, and its copies share it.
#[derive(Drop)]
pub struct Text {
    kept: Kept,
}

impl Model for Text {
    ghost use Rattle.std.specs.Prelude.{List, ℕ};

    ghost Value = { List ℕ };

    ghost use Rattle.c_terms.specs.Kept.{kept_bytes};

    ghost view = { λ t. kept_bytes t.kept };
}

fn keep_inline(bytes: &[u8]) -> Short
    requires { length bytes.now ≤ 15 }
    ensures { take result.len result.bytes ≡ bytes.now }
{
    let mut kept = [0; INLINE];
    for i in 0..bytes.len() {
        kept[i] = bytes[i];
    }
    Short {
        bytes: kept,
        len: bytes.len() as u8,
    }
}

impl Text {
    /// Returns the text of these bytes. Linear.
    pub fn from_bytes(alloc: Global, bytes: &[u8]) -> Result<Text, NoMemory>
        ensures bytes { IfOk result (λ text. text ≡ bytes.now) }
    {
        let kept = if bytes.len() <= INLINE {
            Kept::Short(keep_inline(bytes))
        } else {
            Kept::Long(ArcSlice::from_slice(alloc, bytes)?)
        };
        Ok(Text { kept })
    }

    /// Returns the bytes. Allocates nothing.
    #[inline]
    pub fn as_bytes(&self) -> &[u8]
        ensures bytes { result.now ≡ self.now }
    {
        match &self.kept {
            Kept::Short(short) => &short.bytes[..short.len as usize],
            Kept::Long(shared) => shared.as_slice(),
        }
    }

    /// Returns an equal text. Allocates nothing, and takes the same time at any length.
    #[inline]
    pub fn copy(&self, _alloc: Global) -> Result<Text, NoMemory>
        ensures same { IfOk result (λ text. text ≡ self.now) }
    {
        let kept = match &self.kept {
            Kept::Short(short) => Kept::Short(*short),
            Kept::Long(shared) => Kept::Long(shared.clone()?),
        };
        Ok(Text { kept })
    }
}
