// Laws that hold for the edits of witnesses. The function does nothing.
ghost use Rattle.std.specs.Prelude.{◌≡◌, List};
ghost use Rattle.c_lexer.specs.Pieces.{TextPiece};
ghost use Rattle.cpp_lines.specs.declared.reading.Item.{Item};
ghost use Rattle.edit_marks.specs.declared.edit_walk.nodes.ItemNodes.{ItemNodes};
ghost use Rattle.smpl_patch.specs.declared.rule.Rule.{Rule};
ghost use Rattle.smpl_patch.specs.declared.witness.RuleWitness.{RuleWitness};
ghost use Rattle.edit_marks.specs.declared.edit_conflict.edit.Edit.{Edit};
ghost use Rattle.edit_marks.specs.EditWalk.Edited.{AreEdits};

/// Witnesses have only one list of edits.
pub fn witnesses_have_one_list()
    ensures { (witnesses : List RuleWitness) (rule : Rule) (items : List Item)
        (nodes : List ItemNodes) (pieces : List TextPiece) (a b : List Edit) →
        AreEdits witnesses rule items nodes pieces a →
        AreEdits witnesses rule items nodes pieces b → a ≡ b }
{}
