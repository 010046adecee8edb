// A law of the names of declared variables. The function does nothing.
ghost use Rattle.std.specs.Prelude.{◌≡◌, ℕ, List, All, false};
ghost use Rattle.smpl_patch.specs.declared.rule.Rule.{Rule as PatchRule};
ghost use Rattle.smpl_patch.specs.declared.rule.Patch.{Patch as Whole};
ghost use Rattle.smpl_file.specs.Patches.{IsSpelled};
ghost use Rattle.wit_forest.specs.WitTrees.Forest.{is_hidden};

use c_lexer::{keyword_texts, name_texts};

/// In each patch that bytes spell, no variable of a rule has a name that begins with `{`. Does nothing.
pub fn declared_names_are_words()
    ensures { (bytes : List ℕ) (patch : Whole) → IsSpelled bytes patch →
        All (λ (r : PatchRule). All (λ d. is_hidden d.var ≡ false) r.vars) patch.rules }
{
    name_texts();
    keyword_texts();
}
