// Laws of the rules of patches that are read. The functions do nothing.
ghost use Rattle.std.specs.Prelude.{◌≡◌, ℕ, List, None, true, All, Contains};
ghost use Rattle.std.specs.List.{list_all};
ghost use Rattle.smpl_patch.specs.declared.rule.Rule.{Rule as PatchRule};
ghost use Rattle.smpl_patch.specs.declared.rule.Patch.{Patch as Whole};
ghost use Rattle.smpl_patch.specs.Bodies.{body as plain_body};
ghost use Rattle.smpl_patch.specs.Shapes.{patterns_body};
ghost use Rattle.smpl_patch.specs.Patterns.{sure};
ghost use Rattle.smpl_patch.specs.Sound.{IsSound};
ghost use Rattle.smpl_file.specs.SmplCheck.Checks.{first_fault};
ghost use Rattle.smpl_file.specs.Patches.{IsSpelled, IsPatchOf};
ghost use Rattle.ctl_formula.specs.Plain.{fits};
ghost use Rattle.ctl_formula.specs.Bounds.{bound};
ghost use Rattle.ctl_formula.specs.Formulas.{FormulaOf, plain};
ghost use Rattle.ctl_fixpoint.specs.CtlHolds.Parts.{EachPattern};
ghost use Rattle.ctl_fixpoint.specs.CtlHolds.BoundLaw.{SureStand};
ghost use Rattle.ctl_translate.specs.Rules.{formula_of, first_unbound};
ghost use Rattle.ctl_translate.specs.Answers.{IsFormulaOf};
ghost use Rattle.ctl_translate.specs.declared.rule.FormulaFault.{FormulaFault as Fault};
ghost use Rattle.ctl_translate.specs.declared.rule.FormulaFault.TheVariants as fault;
ghost use Rattle.edit_marks.specs.Edits.{HaveEvenBlocks};
ghost use Rattle.rule_envs.specs.Inherited.{inherited_of};
ghost use Rattle.rule_envs.specs.RuleFormulas.Prepared.{IsPrepareFault};
ghost use Rattle.rule_chain.specs.RuleMatches.Matching.{AreApart};
ghost use Rattle.rule_laws.specs.Ready.{IsReady};

use rule_envs::exported_variables_are_bound;
use sound_laws::{patches_are_sound, spelled_patches_are_sound};

/// The patterns of a rule's formula are those of its body.
///
/// - `patterns`: each of them is one of the rule's body, including those of `when` code. So what holds of each pattern of
///   the body holds of each of the formula.
/// - `stand`: if each pattern of the body contains its sure variables, so does each of the formula.
///
/// Does nothing.
pub fn formulas_have_patterns_of_their_bodies()
    ensures patterns { (rule : PatchRule) → EachPattern (Contains (patterns_body (plain_body rule.body))) (formula_of rule) }
    ensures stand { (rule : PatchRule) → All (SureStand rule.vars rule.tokens) (patterns_body (plain_body rule.body)) →
        EachPattern (SureStand rule.vars rule.tokens) (formula_of rule) }
{}

/// In a sound patch that bytes spell, each variable that a rule exports occurs once among its exports, and isn't inherited
/// from an earlier rule. Does nothing.
pub fn exports_are_apart()
    ensures apart { (bytes : List ℕ) (patch : Whole) → IsSpelled bytes patch → IsSound patch →
        All (λ r. AreApart r.exports (inherited_of r)) patch.rules }
{}

/// In a sound patch without faults of meaning, the formula of each rule binds each variable that the rule exports. Does
/// nothing.
pub fn exports_are_bound()
    ensures bound { (patch : Whole) → IsSound patch → first_fault patch ≡ None →
        All (λ r. list_all (bound (sure r.vars r.tokens) (formula_of r)) r.exports ≡ true) patch.rules }
{
    exported_variables_are_bound();
}

/// In a sound patch, each line of plus code at a token of a rule has as many gaps as tokens. Does nothing.
pub fn plus_blocks_are_even()
    ensures even { (patch : Whole) → IsSound patch → All (λ r. HaveEvenBlocks r.tokens) patch.rules }
{}

/// The rules of a patch without faults of meaning have formulas.
///
/// - `right`: each rule's formula is within the limits, and none of the rule's variables can remain unbound in it.
/// - `fault`: making the formulas of the rules fails only when out of memory.
///
/// Does nothing.
pub fn rules_have_formulas()
    ensures right { (patch : Whole) → first_fault patch ≡ None →
        All (λ r. (fits (formula_of r) ≡ true) × (first_unbound r ≡ None)) patch.rules }
    ensures fault { (patch : Whole) (f : Fault) → first_fault patch ≡ None → IsPrepareFault patch.rules f → f ≡ fault.NoMemory }
{}

/// Each rule of a patch that is read is ready to run, and its formula may be used.
///
/// - `rules`: each rule of a patch that is read is ready.
/// - `stand`, `binds`: the formula that is made of a rule that is ready, with the declarations and tokens that it carries,
///   has patterns that contain their sure variables, and binds what the rule exports.
///
/// Does nothing.
pub fn rules_may_run()
    ensures rules { (bytes : List ℕ) (patch : Whole) → IsPatchOf bytes patch → All IsReady patch.rules }
    ensures stand { (rule : PatchRule) (f : FormulaOf) → IsReady rule → IsFormulaOf rule f →
        EachPattern (SureStand f.decls f.tokens) (plain f) }
    ensures binds { (rule : PatchRule) (f : FormulaOf) → IsReady rule → IsFormulaOf rule f →
        list_all (bound (sure f.decls f.tokens) (plain f)) rule.exports ≡ true }
{
    patches_are_sound();
    spelled_patches_are_sound();
    exported_variables_are_bound();
}
