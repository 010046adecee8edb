// Laws of the edits of witnesses. The functions do nothing.
ghost use Rattle.std.specs.Prelude.{◌≡◌, ◌↔◌, true, List, All, map};
ghost use Rattle.std.specs.List.{list_all};
ghost use Rattle.c_lexer.specs.Pieces.{TextPiece};
ghost use Rattle.cpp_lines.specs.declared.reading.Item.{Item};
ghost use Rattle.smpl_patch.specs.declared.rule.Rule.{Rule};
ghost use Rattle.smpl_patch.specs.declared.witness.RuleWitness.{RuleWitness};
ghost use Rattle.edit_marks.specs.declared.edit_conflict.edit.Edit.{Edit};
ghost use Rattle.edit_marks.specs.declared.edit_walk.nodes.ItemNodes.{ItemNodes};
ghost use Rattle.edit_marks.specs.Edits.{ArePlainInserts};
ghost use Rattle.edit_unparse.specs.Fair.{has_plain_inserts};
ghost use Rattle.edit_marks.specs.EditWalk.Edited.{AreEdits};
ghost use Rattle.edit_marks.specs.declared.tidy.walk.TidiedEdits.{TidiedEdits};
ghost use Rattle.edit_marks.specs.Tidy.Walk.{AreTidyEdits};
ghost use Rattle.rule_chain.specs.RuleWitnesses.Bare.{bare_witness};

/// Inserts whose texts are cut into blanks and tokens other than Strays are fair.
pub fn plain_inserts_are_fair()
    ensures { (edits : List Edit) → All (λ edit. ArePlainInserts edit.inserts) edits →
        list_all has_plain_inserts edits ≡ true }
{}

/// Witnesses have the same edits, plain and tidied, when each id of their values' tokens is replaced by 0.
pub fn ids_of_values_do_not_count()
    ensures plain { (witnesses : List RuleWitness) (rule : Rule) (items : List Item)
        (nodes : List ItemNodes) (pieces : List TextPiece) (edits : List Edit) →
        AreEdits (map bare_witness witnesses) rule items nodes pieces edits ↔
        AreEdits witnesses rule items nodes pieces edits }
    ensures tidied { (witnesses : List RuleWitness) (rule : Rule) (items : List Item)
        (nodes : List ItemNodes) (pieces : List TextPiece) (made : TidiedEdits) →
        AreTidyEdits (map bare_witness witnesses) rule items nodes pieces made ↔
        AreTidyEdits witnesses rule items nodes pieces made }
{}
