// A law of plus code. The function does nothing.
ghost use Rattle.std.specs.Prelude.{ℕ, List, All};
ghost use Rattle.smpl_patch.specs.declared.rule.Iso.{Iso as Isomorphism};
ghost use Rattle.smpl_patch.specs.declared.rule.Rule.{Rule as PatchRule};
ghost use Rattle.smpl_patch.specs.declared.rule.Patch.{Patch as Whole};
ghost use Rattle.smpl_file.specs.Patches.{IsSpelled};
ghost use Rattle.iso_expand.specs.Patches.{IsExpanded};
ghost use Rattle.text_laws.specs.Sound.{HavePlusCode};

use c_lexer::blank_texts;
use sound_laws::patches_are_sound;

/// Each line of plus code in a patch that bytes spell consists of tokens of C that are no Strays, with texts of their
/// kinds, and of metavariables, with only white space between them.
///
/// - `read`: in each rule of the patch.
/// - `forms`: in each rule of the patch with all forms, under any isomorphisms.
///
/// Does nothing.
pub fn read_plus_code_is_sound()
    ensures read { (bytes : List ℕ) (patch : Whole) → IsSpelled bytes patch →
        All (λ (r : PatchRule). HavePlusCode r.tokens) patch.rules }
    ensures forms { (bytes : List ℕ) (isos : List Isomorphism) (patch whole : Whole) → IsSpelled bytes patch →
        IsExpanded isos patch whole → All (λ (r : PatchRule). HavePlusCode r.tokens) whole.rules }
{
    blank_texts();
    patches_are_sound();
}
