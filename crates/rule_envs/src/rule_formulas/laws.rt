// Laws of the formulas of rules.
ghost use Rattle.std.specs.Prelude.{◌≡◌, None, true};
ghost use Rattle.std.specs.List.{list_all};
ghost use Rattle.smpl_patch.specs.declared.rule.Rule.{Rule as PatchRule};
ghost use Rattle.smpl_patch.specs.Patterns.{sure};
ghost use Rattle.smpl_patch.specs.Sound.{is_own_var};
ghost use Rattle.ctl_formula.specs.Bounds.{bound};
ghost use Rattle.ctl_translate.specs.Rules.{formula_of, first_unbound};

/// If a rule exports only its own variables and none of its variables may stay unbound, its formula binds each exported
/// variable: the variable has a value in every way in which the formula holds. That is so for each rule that has a formula
/// which may be used. Does nothing.
pub fn exported_variables_are_bound()
    ensures bound { (rule : PatchRule) → first_unbound rule ≡ None → list_all (is_own_var rule.vars) rule.exports ≡ true
        → list_all (bound (sure rule.vars rule.tokens) (formula_of rule)) rule.exports ≡ true }
{}
