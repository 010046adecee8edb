// Laws of the texts that edits produce. The functions do nothing.
ghost use Rattle.std.specs.Prelude.{◌≡◌, ◌<◌, ◌≤◌, ◌+◌, ℕ, List, All, length};
ghost use Rattle.c_lexer.specs.Pieces.{TextPiece};
ghost use Rattle.c_lexer.specs.Lexes.{Cuts, Lexes};
ghost use Rattle.c_lexer.specs.Ids.{ids_of};
ghost use Rattle.cpp_lines.specs.declared.reading.Item.{Item};
ghost use Rattle.smpl_patch.specs.declared.rule.Rule.{Rule};
ghost use Rattle.smpl_patch.specs.declared.witness.RuleWitness.{RuleWitness};
ghost use Rattle.edit_marks.specs.declared.edit_conflict.edit.Edit.{Edit};
ghost use Rattle.edit_unparse.specs.Fair.{Fair};
ghost use Rattle.edit_marks.specs.EditWalk.Touches.{touches};
ghost use Rattle.edit_marks.specs.declared.edit_walk.nodes.ItemNodes.{ItemNodes};
ghost use Rattle.edit_marks.specs.EditWalk.Edited.{AreEdits};
ghost use Rattle.edit_marks.specs.EditWalk.Fit.{HaveSoundTouches};
ghost use Rattle.rule_chain.specs.RuleEdits.Pages.{page_after};
ghost use Rattle.c_file.specs.Reads.{Reads};
ghost use Rattle.text_laws.specs.OutputLaws.Differ.{AllDiffer};
ghost use Rattle.text_laws.specs.Sound.{HavePlusCode, HasCTerms};

use crate::reading_laws::trees_are_sound;

/// If the tokens of a text have different ids, all below the next one, so have those of the page that edits leave. Does
/// nothing.
pub fn ids_stay_apart()
    ensures { (next : ℕ) (pieces : List TextPiece) (edits : List Edit) → AllDiffer (ids_of pieces)
        → All (λ id. id < next) (ids_of pieces) → AllDiffer (page_after next pieces edits).ids }
{}

/// The page that edits leave has no more ids than bytes, and the next id rises by at most the number of ids. Does nothing.
pub fn ids_stay_few()
    ensures ids { (next : ℕ) (pieces : List TextPiece) (edits : List Edit) → Cuts pieces
        → length (page_after next pieces edits).ids ≤ length (page_after next pieces edits).bytes }
    ensures next { (next : ℕ) (pieces : List TextPiece) (edits : List Edit) →
        (page_after next pieces edits).next ≤ next + length (page_after next pieces edits).ids }
{}

/// The edits of witnesses of a reading of the text are fair: their texts are blanks and tokens of C that are no Strays, and
/// whatever follows a Stray is kept. The law requires that plus code and values consist of such tokens at the touches. Does
/// nothing.
pub fn edits_are_fair()
    ensures { (found : List RuleWitness) (rule : Rule) (items : List Item) (nodes : List ItemNodes)
        (pieces : List TextPiece) (edits : List Edit) → Cuts pieces → Reads pieces items
        → AllDiffer (ids_of pieces) → HaveSoundTouches rule (touches found)
        → AreEdits found rule items nodes pieces edits → Fair pieces edits }
{
    trees_are_sound();
}

/// If plus code and the values of witnesses consist of tokens of C, they do so at each touch. Does nothing.
pub fn touches_are_sound()
    ensures { (rule : Rule) (found : List RuleWitness) → HavePlusCode rule.tokens → All HasCTerms found
        → HaveSoundTouches rule (touches found) }
{}

/// The text after the edits of witnesses is cut into as many tokens as it has ids. Does nothing.
pub fn text_keeps_its_tokens()
    ensures { (found : List RuleWitness) (rule : Rule) (items : List Item) (nodes : List ItemNodes)
        (pieces : List TextPiece) (edits : List Edit) (next : ℕ) (again : List TextPiece) → Cuts pieces
        → Reads pieces items → AllDiffer (ids_of pieces) → HaveSoundTouches rule (touches found)
        → AreEdits found rule items nodes pieces edits → Lexes (page_after next pieces edits).bytes again
        → length (ids_of again) ≡ length (page_after next pieces edits).ids }
{
    trees_are_sound();
}
