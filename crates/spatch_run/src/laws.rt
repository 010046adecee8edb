// A patch that was read meets the requirements for its use. The function does nothing.
ghost use Rattle.std.specs.Prelude.{ℕ, List};
ghost use Rattle.smpl_patch.specs.declared.rule.Iso.{Iso as Isomorphism};
ghost use Rattle.smpl_patch.specs.declared.rule.Patch.{Patch as Whole};
ghost use Rattle.smpl_file.specs.Patches.{IsPatchOf};
ghost use Rattle.iso_expand.specs.Patches.{IsExpanded};
ghost use Rattle.spatch_run.specs.Usable.{IsUsable};

use rule_laws::{rules_have_formulas, rules_that_are_read_may_run, rules_with_forms_may_run};
use sound_laws::patches_are_sound;

/// A patch that was read may be used, and so may one that has all its forms under isomorphisms. Does nothing.
pub fn patches_may_be_used()
    ensures read { (bytes : List ℕ) (patch : Whole) → IsPatchOf bytes patch → IsUsable patch }
    ensures expanded { (bytes : List ℕ) (isos : List Isomorphism) (patch whole : Whole) → IsPatchOf bytes patch →
        IsExpanded isos patch whole → IsUsable whole }
{
    patches_are_sound();
    rules_have_formulas();
    rules_that_are_read_may_run();
    rules_with_forms_may_run();
}
