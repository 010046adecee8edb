// A law of the values of the metavariables of plus code. The function does nothing.
ghost use Rattle.std.specs.Prelude.{ℕ, List, ◌∷◌, All};
ghost use Rattle.smpl_patch.specs.declared.rule.Iso.{Iso as Isomorphism};
ghost use Rattle.smpl_patch.specs.declared.rule.Rule.{Rule as PatchRule};
ghost use Rattle.smpl_patch.specs.declared.rule.Patch.{Patch as Whole};
ghost use Rattle.smpl_file.specs.Patches.{IsPatchOf};
ghost use Rattle.iso_expand.specs.Patches.{IsExpanded};
ghost use Rattle.rule_chain.specs.RuleRun.States.{Chained};
ghost use Rattle.rule_chain.specs.RuleRun.OneRule.{file_witnesses};
ghost use Rattle.edit_marks.specs.EditWalk.Touches.{touches};
ghost use Rattle.text_laws.specs.AgainLaws.Reached.{IsBefore};
ghost use Rattle.insert_laws.specs.Instantiated.{IsInstantiated};

use crate::aligned_laws::{
    aligned_tokens_are_compared, forms_keep_plus_code, simple_nodes_have_no_bodies,
};
use crate::name_laws::declared_names_are_words;
use crate::touch_laws::touches_show_terms;
use cfg_build::paths_lead_to_trees;
use iso_expand::{rules_keep_their_shape, the_tree_comes_first};
use rule_laws::{
    accepted_patches_stay_accepted, formulas_keep_their_shape, rules_have_formulas, rules_may_run,
};
use smpl_body::bodies_are_parted_once;
use smpl_lexer::patch_is_read_once;
use sound_laws::spelled_patches_are_sound;

/// For each patch that is read, over each text, at each rule that the run reaches, at each touch of its witnesses: each
/// metavariable of each block of plus code that the edit of the touch inserts has a value there, and this value is a term.
/// So it is inserted as the text of a term, and is never left out because it has none. The term of a list variable may be a
/// run of no members, whose text is empty.
///
/// - `read`: for a patch that bytes spell.
/// - `forms`: for such a patch with all forms, under any isomorphisms.
///
/// Does nothing.
pub fn plus_code_is_instantiated()
    ensures read { (bytes : List ℕ) (patch : Whole) (defined : List (List ℕ)) (text : List ℕ) (number : ℕ)
        (rule : PatchRule) (rest : List PatchRule) (s : Chained) → IsPatchOf bytes patch →
        IsBefore defined patch.rules text number (rule ∷ rest) s →
        All (IsInstantiated rule s.items s.pieces) (touches (file_witnesses defined number rule s)) }
    ensures forms { (bytes : List ℕ) (isos : List Isomorphism) (patch whole : Whole) (defined : List (List ℕ))
        (text : List ℕ) (number : ℕ) (rule : PatchRule) (rest : List PatchRule) (s : Chained) → IsPatchOf bytes patch →
        IsExpanded isos patch whole → IsBefore defined whole.rules text number (rule ∷ rest) s →
        All (IsInstantiated rule s.items s.pieces) (touches (file_witnesses defined number rule s)) }
{
    spelled_patches_are_sound();
    patch_is_read_once();
    bodies_are_parted_once();
    declared_names_are_words();
    rules_may_run();
    rules_have_formulas();
    rules_keep_their_shape();
    the_tree_comes_first();
    formulas_keep_their_shape();
    accepted_patches_stay_accepted();
    paths_lead_to_trees();
    simple_nodes_have_no_bodies();
    aligned_tokens_are_compared();
    forms_keep_plus_code();
    touches_show_terms();
}
