// Laws of the texts that edits produce, and of the values of graphs. The functions do nothing.
ghost use Rattle.std.specs.Prelude.{◌<◌, ◌≤◌, ◌+◌, ℕ, List, All, length};
ghost use Rattle.c_terms.specs.declared.tree.Tree.{Tree};
ghost use Rattle.c_terms.specs.Trees.{leaves};
ghost use Rattle.c_lexer.specs.Pieces.{TextPiece, text_of};
ghost use Rattle.c_lexer.specs.Lexes.{Cuts, Lexes};
ghost use Rattle.c_lexer.specs.Ids.{ids_of};
ghost use Rattle.cfg_build.specs.Graphs.{graph_of};
ghost use Rattle.ctl_fixpoint.specs.CtlHolds.Values.{values_of};
ghost use Rattle.edit_marks.specs.declared.edit_conflict.edit.Edit.{Edit};
ghost use Rattle.edit_marks.specs.Plain.{AreCTokens};
ghost use Rattle.edit_unparse.specs.NextId.{free_id};
ghost use Rattle.edit_unparse.specs.Output.{output_of};
ghost use Rattle.text_laws.specs.OutputLaws.Differ.{AllDiffer};
ghost use Rattle.text_laws.specs.OutputLaws.Values.{AreCValues};

/// If the tokens of a text have different ids, all below the next one, so have those of the text that edits make of it. The
/// ids of a text that is cut for the first time differ, and are less than the number of its tokens. Does nothing.
pub fn ids_differ()
    ensures after { (pieces : List TextPiece) (edits : List Edit) (next : ℕ) → AllDiffer (ids_of pieces)
        → All (λ id. id < next) (ids_of pieces) → AllDiffer (ids_of (output_of pieces edits next)) }
    ensures first { (bytes : List ℕ) (pieces : List TextPiece) → Lexes bytes pieces
        → AllDiffer (ids_of pieces) }
    ensures below { (bytes : List ℕ) (pieces : List TextPiece) → Lexes bytes pieces
        → All (λ id. id < length (ids_of pieces)) (ids_of pieces) }
{}

/// A text, and one that edits make of it, have no more ids than bytes, and the next id rises by at most the number of ids.
/// Does nothing.
pub fn ids_are_few()
    ensures old { (pieces : List TextPiece) → Cuts pieces → length (ids_of pieces) ≤ length (text_of pieces) }
    ensures new { (pieces : List TextPiece) (edits : List Edit) (next : ℕ) → Cuts pieces
        → length (ids_of (output_of pieces edits next)) ≤ length (text_of (output_of pieces edits next)) }
    ensures next { (next : ℕ) (ids : List ℕ) → free_id next ids ≤ next + length ids }
{}

/// If an item's tokens are tokens of C that are no Strays, each value that a variable can have in its graph is a place, or
/// a term of such tokens. Does nothing.
pub fn values_are_sound()
    ensures { (t : Tree) → AreCTokens (leaves t) → AreCValues (values_of (graph_of t)) }
{}
