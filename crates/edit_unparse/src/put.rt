// Writes the new text piece by piece.
ghost use Rattle.std.specs.Prelude.{◌≡◌, ◌≤◌, ◌<◌, ◌+◌, ◌∷◌, [], ◌++◌, length, OnOk, IsErrOf, Some, None};
ghost use Rattle.c_lexer.specs.Spans.{kind_with_id};
ghost use Rattle.c_lexer.specs.Pieces.{text_of, most_bytes};
ghost use Rattle.edit_unparse.specs.Output.{Part, gap, is_word, old_part, were_beside};
ghost use Rattle.edit_unparse.specs.Written.{Writes, Overflows, left};

use crate::draft::{Draft, Last};
use crate::fault::OutFault;
use c_lexer::{Kind, MOST_BYTES, PieceKind};
use c_show::runs_together;

impl Draft {
    /// Adds a piece of the old text, with its number there.
    pub fn put_old(&mut self, number: u32, kind: PieceKind, text: &[u8]) -> Result<(), OutFault>
        ensures ok { OnOk result (Writes self.old self.new (old_part number (record { kind = kind; text = text.now }) ∷ [])) }
        ensures too_long { IsErrOf result OutFault.TooLong → Overflows self.old (old_part number (record { kind = kind; text = text.now }) ∷ []) }
    {
        self.put_text(Some(number), is_word(kind), text)?;
        if let PieceKind::Word(_, id) = kind {
            self.ids.push(id)?;
        }
        Ok(())
    }

    /// Adds a new piece.
    pub fn put_new(&mut self, kind: Kind, text: &[u8]) -> Result<(), OutFault>
        ensures ok { OnOk result (Writes self.old self.new ((let p : Part = record { from = None; piece = record { kind = kind_with_id kind 0; text = text.now } } in p) ∷ [])) }
        ensures too_long { IsErrOf result OutFault.TooLong → Overflows self.old ((let p : Part = record { from = None; piece = record { kind = kind_with_id kind 0; text = text.now } } in p) ∷ []) }
    {
        let is_word = is_token(kind);
        self.put_text(None, is_word, text)?;
        if is_word {
            self.ids.push(self.next)?;
            self.next += 1;
        }
        Ok(())
    }

    /// Adds a text, preceded by a space if it must be separated from what is there.
    fn put_text(&mut self, from: Option<u32>, is_word: bool, text: &[u8]) -> Result<(), OutFault>
        ensures bytes { OnOk result (self.new.bytes.items ≡ self.old.bytes.items ++ (text_of (gap (left self.old) from text.now) ++ text.now)) }
        ensures last { OnOk result (left self.new ≡ Some (record { from = from; is_word = is_word; text = text.now })) }
        ensures others { OnOk result ((self.new.ids.items ≡ self.old.ids.items) × (self.new.next ≡ self.old.next)) }
        ensures too_long { IsErrOf result OutFault.TooLong → most_bytes < length (self.old.bytes.items ++ (text_of (gap (left self.old) from text.now) ++ text.now)) }
    {
        let spaces = self.spaces(from, text);
        if text.len() + spaces > MOST_BYTES - self.bytes.len() {
            return Err(OutFault::TooLong);
        }
        if spaces == 1 {
            self.bytes.push(b' ')?;
        }
        let start = self.bytes.len();
        self.bytes.extend_from_slice(text)?;
        self.start = start;
        self.last = Some(Last { from, is_word });
        Ok(())
    }

    /// Returns the number of bytes so far.
    pub fn len(&self) -> usize
        ensures value { result ≡ length self.now.bytes.items }
        ensures short { result ≤ most_bytes }
    {
        self.bytes.len()
    }

    /// Returns how many spaces separate a text from what is there: 1 or 0.
    pub fn spaces(&self, from: Option<u32>, text: &[u8]) -> usize
        ensures value { result ≡ length (text_of (gap (left self.now) from text.now)) }
        ensures at_most { result ≤ 1 }
    {
        let Some(last) = self.last else {
            return 0;
        };
        if last.is_word
            && !were_beside(last.from, from)
            && runs_together(&self.bytes[self.start..], text)
        {
            return 1;
        }
        0
    }
}

/// Whether two pieces were neighbours in the old text.
fn were_beside(left: Option<u32>, right: Option<u32>) -> bool
    ensures { result ≡ were_beside left right }
{
    match (left, right) {
        (Some(left), Some(right)) => right as u64 == left as u64 + 1,
        _ => false,
    }
}

pub fn is_word(kind: PieceKind) -> bool
    ensures { result ≡ is_word kind }
{
    matches!(kind, PieceKind::Word(_, _))
}

/// Whether a text of this kind is a token.
fn is_token(kind: Kind) -> bool
    ensures { result ≡ is_word (kind_with_id kind 0) }
{
    !matches!(kind, Kind::Blank | Kind::Comment | Kind::Line)
}
