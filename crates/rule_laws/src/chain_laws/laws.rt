// A law of what is known of each rule that is run. The function does nothing.
ghost use Rattle.std.specs.Prelude.{ℕ, List};
ghost use Rattle.std.specs.List.{AllZip};
ghost use Rattle.smpl_patch.specs.declared.rule.Patch.{Patch as Whole};
ghost use Rattle.smpl_file.specs.Patches.{IsPatchOf};
ghost use Rattle.rule_envs.specs.declared.rule_formulas.prepared.PreparedRule.{PreparedRule};
ghost use Rattle.rule_envs.specs.RuleFormulas.Prepared.{ArePrepared};
ghost use Rattle.rule_chain.specs.Required.{MayRun};

use crate::rules_may_run;

/// Each rule of a patch that is read, in the form that `prepare` makes of it, has what `PatchRules` of rule_chain
/// keeps of each rule (`MayRun`). Does nothing.
pub fn rules_that_are_read_may_run()
    ensures may { (bytes : List ℕ) (patch : Whole) (prepared : List PreparedRule) → IsPatchOf bytes patch →
        ArePrepared patch.rules prepared → AllZip MayRun patch.rules prepared }
{
    rules_may_run();
}
