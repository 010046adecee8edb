// Lists of parts that are separated by commas.
ghost use Rattle.std.specs.Prelude.{◌≡◌, List, Option, IfOk, false};
ghost use Rattle.smpl_lexer.specs.declared.token.PatchToken.{PatchToken as Word};
ghost use Rattle.smpl_meta.specs.Forms.{all_of, chunks};

use crate::parts::chunk_length;
use c_terms::NoMemory;
use smpl_lexer::PatchToken;
use sqlite_items::Items;
use std::alloc::Global;

/// Reads one part.
pub trait PartReader {
    type Part: Drop;

    /// The part that tokens spell, if they spell one.
    ghost spelled: { Self → List Word → Option Self.Part };

    /// Returns the part that the tokens spell, or `None` if they spell none.
    fn read(&self, alloc: Global, tokens: &[PatchToken]) -> Result<Option<Self::Part>, NoMemory>
        ensures { IfOk result (λ o. o ≡ spelled self.now tokens.now) };
}

/// Returns the parts between the commas outside braces, or `None` if one of them spells nothing.
pub fn parts_between<R: PartReader>(
    alloc: Global,
    reader: &R,
    tokens: &[PatchToken],
) -> Result<Option<Items<R::Part>>, NoMemory>
    ensures { IfOk result (λ o. o ≡ all_of (R.spelled reader.now) (chunks false tokens.now)) }
{
    let mut parts = Items::new(alloc);
    let mut start = 0;
    loop {
        let rest = &tokens[start..];
        let n = chunk_length(rest);
        match reader.read(alloc, &rest[..n])? {
            None => return Ok(None),
            Some(part) => parts.push(part)?,
        }
        if n == rest.len() {
            return Ok(Some(parts));
        }
        start += n + 1;
    }
}
