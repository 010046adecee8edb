// Laws of formulas whose patterns have all forms. The functions do nothing.
ghost use Rattle.std.specs.Prelude.{◌≡◌, List};
ghost use Rattle.smpl_terms.specs.declared.var.Var.{Var as Variable};
ghost use Rattle.smpl_patch.specs.declared.pattern.Pattern.{Pattern as Shown};
ghost use Rattle.smpl_patch.specs.declared.pattern.PatToken.{PatToken as Word};
ghost use Rattle.smpl_patch.specs.declared.pattern.VarDecl.{VarDecl as Declared};
ghost use Rattle.smpl_patch.specs.declared.rule.Iso.{Iso as Isomorphism};
ghost use Rattle.smpl_patch.specs.declared.rule.Rule.{Rule as PatchRule};
ghost use Rattle.smpl_patch.specs.declared.rule.Patch.{Patch as Whole};
ghost use Rattle.smpl_patch.specs.Patterns.{stands, sure};
ghost use Rattle.ctl_formula.specs.Bounds.{bound};
ghost use Rattle.ctl_translate.specs.Rules.{formula_of};
ghost use Rattle.smpl_file.specs.SmplCheck.Checks.{first_fault};
ghost use Rattle.iso_expand.specs.Bodies.{expanded_pattern};
ghost use Rattle.iso_expand.specs.Patches.{IsExpandedRule, IsExpanded};
ghost use Rattle.rule_laws.specs.IsoFormulas.Formulas.{expanded_formula};

use iso_expand::rules_keep_their_shape;

/// The formula of a rule with all forms has the shape of the original rule's formula.
///
/// - `formula`: it is the rule's formula, in which each pattern has its forms.
/// - `stands`, `sure`: the variables that occur in a pattern, and those that are sure in it, are those of the original
///   pattern.
/// - `bound`: so the formula binds the same variables.
///
/// Does nothing.
pub fn formulas_keep_their_shape()
    ensures formula { (isos : List Isomorphism) (r s : PatchRule) → IsExpandedRule isos r s →
        formula_of s ≡ expanded_formula isos r.tokens (formula_of r) }
    ensures stands { (isos : List Isomorphism) (words tokens : List Word) (decls : List Declared) (p : Shown) (x : Variable) →
        stands decls tokens (expanded_pattern isos words p) x ≡ stands decls tokens p x }
    ensures sure { (isos : List Isomorphism) (words tokens : List Word) (decls : List Declared) (p : Shown) (x : Variable) →
        sure decls tokens (expanded_pattern isos words p) x ≡ sure decls tokens p x }
    ensures bound { (isos : List Isomorphism) (r s : PatchRule) (x : Variable) → IsExpandedRule isos r s →
        bound (sure s.vars s.tokens) (formula_of s) x ≡ bound (sure r.vars r.tokens) (formula_of r) x }
{
    rules_keep_their_shape();
}

/// A patch with all forms has the same first fault of meaning as the original patch, or none if that has none: no formula
/// grows too large, and no further variable can remain unbound. Does nothing.
pub fn accepted_patches_stay_accepted()
    ensures fault { (isos : List Isomorphism) (p q : Whole) → IsExpanded isos p q → first_fault q ≡ first_fault p }
{
    rules_keep_their_shape();
}
