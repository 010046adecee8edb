// A text that is built piece by piece.
ghost use Rattle.std.specs.Prelude.{◌≡◌, ◌++◌, [], OnOk};
ghost use Rattle.std.specs.Fmt.{decimal};

use c_terms::NoMemory;
use std::alloc::Global;
use std::marker::Model;

/// A text that is built piece by piece. Contracts see its bytes.
#[derive(Drop)]
pub struct TextBuffer {
    alloc: Global,
    text: Vec<u8>,
}

impl Model for TextBuffer {
    ghost use Rattle.std.specs.Prelude.{List, ℕ};

    ghost Value = { List ℕ };

    ghost view = { λ buffer. buffer.text.items };
}

impl TextBuffer {
    /// Returns an empty text.
    pub fn new(alloc: Global) -> TextBuffer
        ensures { result ≡ [] }
    {
        TextBuffer {
            alloc,
            text: Vec::new(alloc),
        }
    }

    /// Returns the bytes of the text.
    pub fn finish(self) -> Vec<u8>
        ensures { result.items ≡ self }
    {
        self.text
    }

    /// Returns the allocator that the text was made with.
    pub fn alloc(&self) -> Global {
        self.alloc
    }

    /// Appends bytes. Fails only when out of memory.
    pub fn put(&mut self, bytes: &[u8]) -> Result<(), NoMemory>
        ensures { OnOk result (self.new ≡ self.old ++ bytes.now) }
    {
        self.text.extend_from_slice(bytes)?;
        Ok(())
    }

    /// Appends a number in decimal. Fails only when out of memory.
    pub fn put_number(&mut self, n: u64) -> Result<(), NoMemory>
        ensures { OnOk result (self.new ≡ self.old ++ decimal n) }
    {
        let text = format!(in self.alloc; "{n}")?;
        self.put(text.as_bytes())
    }

    /// Appends bytes, then a number in decimal. Fails only when out of memory.
    pub fn put_numbered(&mut self, bytes: &[u8], n: u64) -> Result<(), NoMemory>
        ensures { OnOk result (self.new ≡ self.old ++ bytes.now ++ decimal n) }
    {
        self.put(bytes)?;
        self.put_number(n)
    }
}
