// A law of the values at touches. The function does nothing.
ghost use Rattle.std.specs.Prelude.{◌≡◌, ℕ, Bool, List, All, None};
ghost use Rattle.c_lexer.specs.Pieces.{TextPiece};
ghost use Rattle.cpp_lines.specs.declared.reading.Item.{Item};
ghost use Rattle.c_file.specs.Reads.{Reads};
ghost use Rattle.smpl_terms.specs.declared.var.Var.{Var as Variable};
ghost use Rattle.smpl_patch.specs.declared.rule.Rule.{Rule as PatchRule};
ghost use Rattle.ctl_translate.specs.Rules.{first_unbound};
ghost use Rattle.rule_envs.specs.declared.file_env.FileEnv.{FileEnv};
ghost use Rattle.rule_chain.specs.RuleMatches.Matching.{rule_found, file_envs_after};
ghost use Rattle.rule_laws.specs.Ready.{IsReady};
ghost use Rattle.edit_marks.specs.EditWalk.Touches.{touches};
ghost use Rattle.insert_laws.specs.TouchLaws.Metas.{AreMetas, CarriesTerms, ShowsTerms};

use crate::scope_laws::{atoms_have_their_variables, blocks_are_hidden};
use crate::term_laws::bound_metavariables_have_terms;
use cfg_build::every_item_has_a_graph;
use rule_laws::formulas_have_patterns_of_their_bodies;

/// The metavariables that a rule uses have terms at its touches, if the rule may run and no variable can remain unbound in
/// it, over the items of a text that is read. The metavariables are any set of variables that are neither positions at the
/// rule's tokens nor hidden variables of blocks, and the environments before the rule must give them only terms as values.
///
/// - `found`: at each touch of its witnesses, each of these variables that the rule declares and the pattern of the touched
///   atom uses, including in plus code, has a value, and it is a term.
/// - `carried`: the environments after the rule give them only terms as values.
///
/// Does nothing.
pub fn touches_show_terms()
    ensures found { (defined : List (List ℕ)) (had : List ℕ) (number : ℕ) (rule : PatchRule) (pieces : List TextPiece)
        (items : List Item) (file_envs : List FileEnv) (metas : Variable → Bool) → IsReady rule → first_unbound rule ≡ None →
        AreMetas metas rule → Reads pieces items → All (CarriesTerms metas) file_envs →
        All (ShowsTerms metas rule items) (touches (rule_found defined had number rule items file_envs)) }
    ensures carried { (defined : List (List ℕ)) (had : List ℕ) (number : ℕ) (rule : PatchRule) (pieces : List TextPiece)
        (items : List Item) (file_envs : List FileEnv) (metas : Variable → Bool) → IsReady rule → first_unbound rule ≡ None →
        AreMetas metas rule → Reads pieces items → All (CarriesTerms metas) file_envs →
        All (CarriesTerms metas) (file_envs_after defined had number rule items file_envs) }
{
    bound_metavariables_have_terms();
    atoms_have_their_variables();
    blocks_are_hidden();
    formulas_have_patterns_of_their_bodies();
    every_item_has_a_graph();
}
