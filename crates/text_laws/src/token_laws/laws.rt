// Laws of the states that rules lead to. The functions do nothing.
ghost use Rattle.std.specs.Prelude.{◌≡◌, ℕ, Bool, List, length};
ghost use Rattle.c_lexer.specs.Pieces.{TextPiece};
ghost use Rattle.c_lexer.specs.Lexes.{Lexes};
ghost use Rattle.c_lexer.specs.Ids.{ids_of};
ghost use Rattle.cpp_lines.specs.declared.reading.Item.{Item};
ghost use Rattle.c_file.specs.Reads.{Reads};
ghost use Rattle.smpl_patch.specs.declared.rule.Rule.{Rule};
ghost use Rattle.edit_marks.specs.declared.edit_conflict.edit.Edit.{Edit};
ghost use Rattle.rule_chain.specs.RuleRun.States.{Chained, IsCut, first_state};
ghost use Rattle.rule_chain.specs.RuleRun.OneRule.{RuleEdits, Leads, state_after};
ghost use Rattle.text_laws.specs.Sound.{HavePlusCode};
ghost use Rattle.text_laws.specs.TokenLaws.States.{IsSoundState};

use crate::output_laws::ids_differ;
use crate::value_laws::found_values_are_sound;
use crate::{ids_stay_apart, text_keeps_its_tokens, touches_are_sound};
use c_lexer::every_text_is_cut;
use rule_chain::ids_stay_below_next;

/// Before the first rule, the ids of the text's tokens differ and are below the next one. Does nothing.
pub fn first_states_are_sound()
    ensures { (bytes : List ℕ) (pieces : List TextPiece) (items : List Item) → Lexes bytes pieces →
        (reads : Reads pieces items) → IsSoundState (first_state pieces reads.0 items) }
{
    ids_differ();
}

/// After each rule whose plus code consists of tokens of C and metavariables, whether the text is read again or not, the
/// ids of the tokens that were read last differ, all ids are below the next one, and the values of environments are places,
/// or terms of tokens of C. Does nothing.
pub fn states_stay_sound()
    ensures { (defined : List (List ℕ)) (number : ℕ) (rule : Rule) (followed : Bool) (s next : Chained) →
        HavePlusCode rule.tokens → IsSoundState s → Leads defined number rule followed s next → IsSoundState next }
{
    ids_stay_apart();
    ids_stay_below_next();
    found_values_are_sound();
}

/// The text that such a rule leaves from a sound state is cut into the tokens whose ids it has.
///
/// - `counted`: however it is cut, it has as many tokens as ids.
/// - `pieces`: it is cut into pieces whose tokens have these ids, in order.
///
/// Does nothing.
pub fn new_texts_are_cut()
    ensures counted { (defined : List (List ℕ)) (number : ℕ) (rule : Rule) (s : Chained) (edits : List Edit)
        (again : List TextPiece) → HavePlusCode rule.tokens → IsSoundState s → RuleEdits defined number rule s edits →
        Lexes (state_after defined number rule s edits).page.bytes again →
        length (ids_of again) ≡ length (state_after defined number rule s edits).page.ids }
    ensures pieces { (defined : List (List ℕ)) (number : ℕ) (rule : Rule) (s : Chained) (edits : List Edit) →
        HavePlusCode rule.tokens → IsSoundState s → RuleEdits defined number rule s edits →
        (pieces : List TextPiece) × IsCut (state_after defined number rule s edits).page pieces }
{
    every_text_is_cut();
    text_keeps_its_tokens();
    touches_are_sound();
    found_values_are_sound();
}
