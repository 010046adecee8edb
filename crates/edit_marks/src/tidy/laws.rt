// Laws that hold for the tidied edits of witnesses. The function does nothing.
ghost use Rattle.std.specs.Prelude.{List};
ghost use Rattle.c_lexer.specs.Pieces.{TextPiece};
ghost use Rattle.cpp_lines.specs.declared.reading.Item.{Item};
ghost use Rattle.smpl_patch.specs.declared.rule.Rule.{Rule};
ghost use Rattle.smpl_patch.specs.declared.witness.RuleWitness.{RuleWitness};
ghost use Rattle.edit_marks.specs.declared.edit_walk.nodes.ItemNodes.{ItemNodes};
ghost use Rattle.edit_marks.specs.declared.tidy.walk.TidiedEdits.{TidiedEdits as Tidied};
ghost use Rattle.edit_marks.specs.Tidy.Walk.{AreTidyEdits};
ghost use Rattle.edit_marks.specs.Tidy.Same.{AreSame};

/// Witnesses have only one list of tidied edits, with one outline and with one statement for each touch.
pub fn witnesses_have_one_tidied_list()
    ensures { (witnesses : List RuleWitness) (rule : Rule) (items : List Item)
        (nodes : List ItemNodes) (pieces : List TextPiece) (a b : Tidied) →
        AreTidyEdits witnesses rule items nodes pieces a →
        AreTidyEdits witnesses rule items nodes pieces b → AreSame a b }
{}
