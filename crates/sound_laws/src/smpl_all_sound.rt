//! Patches that are read are sound, as [`smpl_patch`] defines it.
//!
//! - [`spelled_patches_are_sound`] is a law: its clause holds, and it does nothing.
#![tactic(auto)]

ghost use Rattle.std.specs.Prelude.{ℕ, List};
ghost use Rattle.smpl_patch.specs.declared.rule.Patch.{Patch as Whole};
ghost use Rattle.smpl_patch.specs.Sound.{IsSound};
ghost use Rattle.smpl_file.specs.Patches.{IsSpelled};

use crate::smpl_sound::patches_are_sound;
use c_lexer::blank_texts;

/// Each patch that bytes spell is sound: it has all the parts of soundness that smpl_sound proves, and a line of plus code
/// has as many gaps as tokens. Does nothing.
pub fn spelled_patches_are_sound()
    ensures sound { (bytes : List ℕ) (patch : Whole) → IsSpelled bytes patch → IsSound patch }
{
    blank_texts();
    patches_are_sound();
}
