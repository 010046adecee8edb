// Laws of isomorphisms that are read. The function does nothing.
ghost use Rattle.std.specs.Prelude.{ℕ, List};
ghost use Rattle.smpl_patch.specs.declared.rule.Iso.{Iso as Isomorphism};
ghost use Rattle.smpl_patch.specs.declared.rule.Patch.{Patch as Whole};
ghost use Rattle.smpl_patch.specs.Sound.{IsSound};
ghost use Rattle.iso_file.specs.Isos.{AreIsosOf};
ghost use Rattle.iso_expand.specs.Patches.{IsExpanded};
ghost use Rattle.sound_laws.specs.IsoLaws.Fine.{AreFine};

use crate::iso_laws::expanded_patches_are_sound;

/// The isomorphisms of a file are fine, and keep sound patches sound.
///
/// - `fine`: a side that may be replaced by another contains each variable of the other, and each branch of a side has
///   fewer than 2^32 children.
/// - `sound`: so a sound patch remains sound when its patterns are given all their forms under them.
///
/// Does nothing.
pub fn read_isomorphisms_are_fine()
    ensures fine { (bytes : List ℕ) (isos : List Isomorphism) → AreIsosOf bytes isos → AreFine isos }
    ensures sound { (bytes : List ℕ) (isos : List Isomorphism) (p q : Whole) → AreIsosOf bytes isos → IsExpanded isos p q →
        IsSound p → IsSound q }
{
    expanded_patches_are_sound();
}
