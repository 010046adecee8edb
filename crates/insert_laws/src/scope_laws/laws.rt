// Laws of where formulas quantify variables. The functions do nothing.
ghost use Rattle.smpl_patch.specs.declared.rule.Rule.{Rule as PatchRule};
ghost use Rattle.smpl_patch.specs.Patterns.{used};
ghost use Rattle.ctl_translate.specs.Rules.{formula_of};
ghost use Rattle.insert_laws.specs.TermLaws.Terms.{HidesBlocks};
ghost use Rattle.insert_laws.specs.ScopeLaws.Scopes.{Covers, is_free};

/// At each atom of a rule's formula that isn't under Not, each variable that the atom's pattern uses, including in plus
/// code, is quantified above it, or is exported, inherited or none of the rule's. Does nothing.
pub fn atoms_have_their_variables()
    ensures { (rule : PatchRule) → Covers (used rule.vars rule.tokens) (is_free rule) (formula_of rule) }
{}

/// In a rule's formula each variable that stands for the place of a block's `{` has a name that begins with `{`. Does nothing.
pub fn blocks_are_hidden()
    ensures { (rule : PatchRule) → HidesBlocks (formula_of rule) }
{}
