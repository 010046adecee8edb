// A law of what is known of each rule that is run, for patches with all forms. The function does nothing.
ghost use Rattle.std.specs.Prelude.{◌≡◌, ◌<◌, ◌^◌, ℕ, List, length};
ghost use Rattle.std.specs.List.{AllZip};
ghost use Rattle.smpl_patch.specs.declared.rule.Iso.{Iso as Isomorphism};
ghost use Rattle.smpl_patch.specs.declared.rule.Patch.{Patch as Whole};
ghost use Rattle.smpl_file.specs.Patches.{IsPatchOf};
ghost use Rattle.iso_expand.specs.Patches.{IsExpanded};
ghost use Rattle.ctl_translate.specs.declared.rule.FormulaFault.{FormulaFault as Fault};
ghost use Rattle.ctl_translate.specs.declared.rule.FormulaFault.TheVariants as fault;
ghost use Rattle.rule_envs.specs.declared.rule_formulas.prepared.PreparedRule.{PreparedRule};
ghost use Rattle.rule_envs.specs.RuleFormulas.Prepared.{ArePrepared, IsPrepareFault};
ghost use Rattle.rule_chain.specs.Required.{MayRun};

use crate::iso_formulas::{accepted_patches_stay_accepted, formulas_keep_their_shape};
use crate::{rules_have_formulas, rules_may_run};
use sound_laws::patches_are_sound;

/// The rules of a patch that is read may be run also when its patterns have all their forms, under any isomorphisms.
///
/// - `may`: each rule has what `PatchRules` of rule_chain keeps of it, when the rules are run in the form that `prepare`
///   makes of them.
/// - `fault`: making the formulas of the rules fails only when out of memory.
/// - `count`: there are fewer than 2^32 rules.
///
/// Does nothing.
pub fn rules_with_forms_may_run()
    ensures may { (bytes : List ℕ) (isos : List Isomorphism) (patch whole : Whole) (prepared : List PreparedRule) →
        IsPatchOf bytes patch → IsExpanded isos patch whole → ArePrepared whole.rules prepared →
        AllZip MayRun whole.rules prepared }
    ensures fault { (bytes : List ℕ) (isos : List Isomorphism) (patch whole : Whole) (f : Fault) → IsPatchOf bytes patch →
        IsExpanded isos patch whole → IsPrepareFault whole.rules f → f ≡ fault.NoMemory }
    ensures count { (bytes : List ℕ) (isos : List Isomorphism) (patch whole : Whole) → IsPatchOf bytes patch →
        IsExpanded isos patch whole → length whole.rules < 2 ^ 32 }
{
    patches_are_sound();
    rules_may_run();
    rules_have_formulas();
    formulas_keep_their_shape();
    accepted_patches_stay_accepted();
}
