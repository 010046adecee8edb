// What holds of notes but is not the contract of any single call. The functions do nothing.
ghost use Rattle.std.specs.Prelude.{◌≡◌, List, ℕ};
ghost use Rattle.smpl_lexer.specs.declared.text.PatchText.{PatchText as Whole};
ghost use Rattle.smpl_lexer.specs.Texts.{IsTextOf};
ghost use Rattle.smpl_patch.specs.declared.rule.Patch.{Patch as Rules};
ghost use Rattle.smpl_notes.specs.declared.note.Note.{Note as Said};
ghost use Rattle.smpl_notes.specs.Notes.{AreNotes};

use smpl_lexer::patch_is_read_once;

/// The law that a patch has notes, if its bytes spell a text. Does nothing.
pub fn patches_have_notes()
    ensures { (bytes : List ℕ) (text : Whole) (patch : Rules) → IsTextOf bytes text →
        (found : List Said) × AreNotes bytes patch found }
{}

/// The law that a patch and its bytes have only one list of notes. Does nothing.
pub fn patches_are_noted_once()
    ensures { (bytes : List ℕ) (patch : Rules) (one other : List Said) → AreNotes bytes patch one →
        AreNotes bytes patch other → one ≡ other }
{
    patch_is_read_once();
}
