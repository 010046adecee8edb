// What is known of the trees that begin at places, so that brackets are read once.
ghost use Rattle.std.specs.Prelude.{◌≡◌, ◌≤◌, ◌&&◌, ℕ, List, [], IfSome};
ghost use Rattle.c_rows.specs.Kinds as kinds;
ghost use Rattle.c_rows.specs.Seen as view;
ghost use Rattle.c_expr.specs.Recognizers.{Known, AreRight};
ghost use Rattle.c_expr.specs.Recognizers as recognizers;

use c_rows::{Facts, Kind, within};
use std::alloc::{AllocError, Global};

/// A tree that is not built: its facts, the number of its levels, and the place after its last token.
#[derive(Clone, Copy)]
pub struct Recognizer {
    pub facts: Facts,
    pub levels: u16,
    pub end: usize,
}

/// The one tree of the kind that begins at the place and has at most `most` levels, or the fact that there is none.
#[derive(Clone, Copy)]
pub struct Entry {
    pub at: usize,
    pub kind: Kind,
    pub most: u16,
    pub found: Option<Recognizer>,
    /// The number of the previous entry of the same place, counted from 1, or 0 if there is none.
    before: usize,
}

/// What is known of the trees that begin at places.
#[derive(Drop)]
pub struct Memo {
    /// For each place the number of its last entry, counted from 1, or 0 if there is none.
    last: Vec<usize>,
    pub entries: Vec<Entry>,
}

impl Memo {
    /// Returns an empty record, without places or entries. Takes no memory.
    pub fn nothing(alloc: Global) -> Memo
        ensures { result.entries.items ≡ [] }
    {
        Memo {
            last: Vec::new(alloc),
            entries: Vec::new(alloc),
        }
    }

    /// Extends the record to this many places. If memory is refused, no entry is lost.
    pub fn reach(&mut self, places: usize) -> Result<(), AllocError>
        ensures { self.new.entries.items ≡ self.old.entries.items }
    {
        while self.last.len() < places {
            self.last.push(0)?;
        }
        Ok(())
    }

    /// Returns what is known of the trees of the kind that begin at the place and have at most `most` levels. Takes no
    /// memory, and one step for each entry of the place.
    pub fn recall(&self, most: u16, kind: Kind, at: usize) -> Option<Option<Recognizer>>
        ensures { IfSome result (λ known. (from : ℕ) (seen : List view.Seen)
            → AreRight from seen self.now.entries.items → Known most kind seen at known) }
    {
        let mut number = match self.last.get(at) {
            None => 0,
            Some(number) => *number,
        };
        while number > 0 {
            let entry = *self.entries.get(number - 1)?;
            if entry.at == at && is_same(entry.kind, kind) && most <= entry.most {
                return Some(low(most, entry.found));
            }
            if entry.before >= number {
                return None;
            }
            number = entry.before;
        }
        None
    }

    /// Keeps what was found of the trees of the kind that begin at the place and have at most `most` levels.
    pub fn keep(
        &mut self,
        most: u16,
        kind: Kind,
        at: usize,
        found: Option<Recognizer>,
    ) -> Result<(), AllocError>
        ensures { (from : ℕ) (seen : List view.Seen) → AreRight from seen self.old.entries.items
            → from ≤ at → Known most kind seen at found → AreRight from seen self.new.entries.items }
    {
        if at < self.last.len() {
            let before = self.last[at];
            self.entries.push(Entry {
                at,
                kind,
                most,
                found,
                before,
            })?;
            self.last[at] = self.entries.len();
        }
        Ok(())
    }
}

/// Whether both kinds have the same trees.
fn is_same(kind: Kind, other: Kind) -> bool
    ensures { result ≡ kinds.within kind other && kinds.within other kind }
{
    within(kind, other) && within(other, kind)
}

/// Returns the tree if it has at most `most` levels.
fn low(most: u16, found: Option<Recognizer>) -> Option<Recognizer>
    ensures { result ≡ recognizers.low most found }
{
    match found {
        None => None,
        Some(recognizer) => {
            if recognizer.levels <= most {
                Some(recognizer)
            } else {
                None
            }
        }
    }
}
