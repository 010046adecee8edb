// Laws of the texts that rules leave, when cut again. The functions do nothing.
ghost use Rattle.std.specs.Prelude.{◌≡◌, ◌∷◌, ℕ, List};
ghost use Rattle.c_lexer.specs.Pieces.{TextPiece};
ghost use Rattle.c_lexer.specs.Lexes.{Lexes};
ghost use Rattle.smpl_patch.specs.declared.rule.Iso.{Iso as Isomorphism};
ghost use Rattle.smpl_patch.specs.declared.rule.Rule.{Rule as PatchRule};
ghost use Rattle.smpl_patch.specs.declared.rule.Patch.{Patch as Whole};
ghost use Rattle.smpl_file.specs.Patches.{IsSpelled};
ghost use Rattle.iso_expand.specs.Patches.{IsExpanded};
ghost use Rattle.edit_marks.specs.declared.edit_conflict.edit.Edit.{Edit};
ghost use Rattle.edit_unparse.specs.Words.{solid};
ghost use Rattle.rule_chain.specs.RuleRun.States.{Chained, IsCut};
ghost use Rattle.rule_chain.specs.RuleRun.OneRule.{RuleEdits, state_after};
ghost use Rattle.text_laws.specs.Sound.{HavePlusCode};
ghost use Rattle.text_laws.specs.TokenLaws.States.{IsSoundState};
ghost use Rattle.text_laws.specs.AgainLaws.Tokens.{tokens_of, left_pieces};
ghost use Rattle.text_laws.specs.AgainLaws.Reached.{IsBefore};

use crate::plus_laws::read_plus_code_is_sound;
use crate::token_laws::{first_states_are_sound, states_stay_sound};
use crate::value_laws::found_values_are_sound;
use crate::{edits_are_fair, touches_are_sound};

/// The text that a rule leaves from a sound state, if its plus code consists of tokens of C and metavariables, is cut again
/// into the tokens that its edits leave.
///
/// - `solid`: however it is cut, its tokens, comments and preprocessor lines are those of the pieces that the edits leave, in
///   order.
/// - `tokens`: cut into pieces with the ids of its page, its tokens are those of these pieces, with their texts and ids:
///   the kept ones with their old ids, the added ones with new ids.
///
/// Does nothing.
pub fn new_texts_are_of_their_tokens()
    ensures solid { (defined : List (List ℕ)) (number : ℕ) (rule : PatchRule) (s : Chained) (edits : List Edit)
        (again : List TextPiece) → HavePlusCode rule.tokens → IsSoundState s → RuleEdits defined number rule s edits →
        Lexes (state_after defined number rule s edits).page.bytes again →
        solid again ≡ solid (left_pieces s.page.next s.pieces edits) }
    ensures tokens { (defined : List (List ℕ)) (number : ℕ) (rule : PatchRule) (s : Chained) (edits : List Edit)
        (pieces : List TextPiece) → HavePlusCode rule.tokens → IsSoundState s → RuleEdits defined number rule s edits →
        IsCut (state_after defined number rule s edits).page pieces →
        tokens_of pieces ≡ tokens_of (left_pieces s.page.next s.pieces edits) }
{
    found_values_are_sound();
    touches_are_sound();
    edits_are_fair();
}

/// For each patch that is read, over each text, at each rule that the run reaches, the text that the edits of this rule
/// leave is cut again into exactly the kept and the added tokens, with their ids.
///
/// - `read`: for a patch that bytes spell.
/// - `forms`: for such a patch with all forms, under any isomorphisms.
///
/// Does nothing.
pub fn patches_leave_their_tokens()
    ensures read { (bytes : List ℕ) (patch : Whole) (defined : List (List ℕ)) (text : List ℕ) (number : ℕ)
        (rule : PatchRule) (rest : List PatchRule) (s : Chained) (edits : List Edit) (pieces : List TextPiece) →
        IsSpelled bytes patch → IsBefore defined patch.rules text number (rule ∷ rest) s →
        RuleEdits defined number rule s edits → IsCut (state_after defined number rule s edits).page pieces →
        tokens_of pieces ≡ tokens_of (left_pieces s.page.next s.pieces edits) }
    ensures forms { (bytes : List ℕ) (isos : List Isomorphism) (patch whole : Whole) (defined : List (List ℕ))
        (text : List ℕ) (number : ℕ) (rule : PatchRule) (rest : List PatchRule) (s : Chained) (edits : List Edit)
        (pieces : List TextPiece) → IsSpelled bytes patch → IsExpanded isos patch whole →
        IsBefore defined whole.rules text number (rule ∷ rest) s → RuleEdits defined number rule s edits →
        IsCut (state_after defined number rule s edits).page pieces →
        tokens_of pieces ≡ tokens_of (left_pieces s.page.next s.pieces edits) }
{
    read_plus_code_is_sound();
    first_states_are_sound();
    states_stay_sound();
    new_texts_are_of_their_tokens();
}
