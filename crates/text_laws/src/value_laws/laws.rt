// A law of the values that a rule finds. The function does nothing.
ghost use Rattle.std.specs.Prelude.{ℕ, List, All};
ghost use Rattle.c_lexer.specs.Pieces.{TextPiece};
ghost use Rattle.c_lexer.specs.Lexes.{Cuts};
ghost use Rattle.cpp_lines.specs.declared.reading.Item.{Item};
ghost use Rattle.c_file.specs.Reads.{Reads};
ghost use Rattle.smpl_patch.specs.declared.rule.Rule.{Rule};
ghost use Rattle.rule_envs.specs.declared.file_env.FileEnv.{FileEnv};
ghost use Rattle.rule_chain.specs.RuleMatches.Matching.{rule_found, file_envs_after};
ghost use Rattle.text_laws.specs.Sound.{HasCTerms};
ghost use Rattle.text_laws.specs.ValueLaws.Carried.{CarriesTerms};

use crate::output_laws::values_are_sound;
use crate::reading_laws::trees_are_sound;

/// A rule with any number, over the items of a text that is read, finds only places and terms of tokens of C that are no
/// Strays, if the values of the environments before it are such.
///
/// - `found`: all values of its witnesses are such, in their environments and in their trees.
/// - `carried`: so are the values of the environments after it.
///
/// Does nothing.
pub fn found_values_are_sound()
    ensures found { (defined : List (List ℕ)) (had : List ℕ) (number : ℕ) (rule : Rule) (pieces : List TextPiece)
        (items : List Item) (file_envs : List FileEnv) → Cuts pieces → Reads pieces items → All CarriesTerms file_envs →
        All HasCTerms (rule_found defined had number rule items file_envs) }
    ensures carried { (defined : List (List ℕ)) (had : List ℕ) (number : ℕ) (rule : Rule) (pieces : List TextPiece)
        (items : List Item) (file_envs : List FileEnv) → Cuts pieces → Reads pieces items → All CarriesTerms file_envs →
        All CarriesTerms (file_envs_after defined had number rule items file_envs) }
{
    values_are_sound();
    trees_are_sound();
}
