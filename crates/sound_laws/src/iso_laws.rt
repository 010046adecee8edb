//! Patches remain sound when their patterns are given their forms.
//!
//! - [`expanded_patches_are_sound`] is a law: its clause holds, and it does nothing.
#![tactic(auto)]

ghost use Rattle.std.specs.Prelude.{List};
ghost use Rattle.smpl_patch.specs.declared.rule.Iso.{Iso as Isomorphism};
ghost use Rattle.smpl_patch.specs.declared.rule.Patch.{Patch as Whole};
ghost use Rattle.smpl_patch.specs.Sound.{IsSound};
ghost use Rattle.iso_expand.specs.Patches.{IsExpanded};
ghost use Rattle.sound_laws.specs.IsoLaws.Fine.{AreFine};

/// A sound patch remains sound when its patterns are given their forms under fine isomorphisms: the tokens of each form
/// have numbers of the rule, its metavariables are declared, and no list grows too long. Does nothing.
pub fn expanded_patches_are_sound()
    ensures sound { (isos : List Isomorphism) (p q : Whole) → AreFine isos → IsExpanded isos p q → IsSound p → IsSound q }
{}
