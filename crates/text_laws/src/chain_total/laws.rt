// Laws on the end of the rules over a text. The functions do nothing.
ghost use Rattle.std.specs.Prelude.{ℕ, List, false};
ghost use Rattle.c_lexer.specs.Pieces.{TextPiece};
ghost use Rattle.cpp_lines.specs.declared.reading.Item.{Item};
ghost use Rattle.c_file.specs.Reads.{Reads};
ghost use Rattle.smpl_patch.specs.declared.rule.Iso.{Iso as Isomorphism};
ghost use Rattle.smpl_patch.specs.declared.rule.Patch.{Patch as Whole};
ghost use Rattle.smpl_file.specs.Patches.{IsSpelled};
ghost use Rattle.iso_expand.specs.Patches.{IsExpanded};
ghost use Rattle.rule_chain.specs.Chain.{Outcome, Chain};
ghost use Rattle.text_laws.specs.ChainTotal.Weakly.{Weakly};

use crate::plus_laws::read_plus_code_is_sound;
use crate::token_laws::{first_states_are_sound, new_texts_are_cut, states_stay_sound};
use c_lexer::every_text_is_cut;

/// It is impossible that pieces can't be read as items. Does nothing.
pub fn texts_are_read()
    ensures { (pieces : List TextPiece) → Weakly ((items : List Item) × Reads pieces items) }
{
    every_text_is_cut();
}

/// Over each text the rules of a patch lead to a last state or to a fault, without `--tidy`: it is impossible that there is no
/// such end.
///
/// - `read`: for a patch that bytes spell.
/// - `forms`: for such a patch with all forms, under any isomorphisms.
///
/// Does nothing.
pub fn chains_have_an_end()
    ensures read { (bytes : List ℕ) (patch : Whole) (defined : List (List ℕ)) (text : List ℕ) → IsSpelled bytes patch →
        Weakly ((end : Outcome) × Chain false patch.rules defined text end) }
    ensures forms { (bytes : List ℕ) (isos : List Isomorphism) (patch whole : Whole) (defined : List (List ℕ))
        (text : List ℕ) → IsSpelled bytes patch → IsExpanded isos patch whole →
        Weakly ((end : Outcome) × Chain false whole.rules defined text end) }
{
    every_text_is_cut();
    read_plus_code_is_sound();
    first_states_are_sound();
    states_stay_sound();
    new_texts_are_cut();
}
