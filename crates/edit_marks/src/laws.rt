// Laws that hold for the edits of alignments. The function does nothing.
ghost use Rattle.std.specs.Prelude.{◌≡◌, List};
ghost use Rattle.smpl_patch.specs.declared.pattern.VarDecl.{VarDecl};
ghost use Rattle.smpl_patch.specs.declared.pattern.PatToken.{PatToken as PatternToken};
ghost use Rattle.edit_marks.specs.declared.edit_conflict.edit.Edit.{Edit as Change};
ghost use Rattle.edit_marks.specs.declared.removals.Aligned.{Aligned as Pairing};
ghost use Rattle.edit_marks.specs.declared.file_tokens.FileToken.{FileToken as Token};
ghost use Rattle.edit_marks.specs.Blocks.{Environment};
ghost use Rattle.edit_marks.specs.Edits.{EditOf};

/// An alignment has only one edit.
pub fn alignment_has_one_edit()
    ensures { (decls : List VarDecl) (tokens : List PatternToken) (env : Environment)
        (files : List Token) (pairs : List Pairing) (a b : Change) →
        EditOf decls tokens env files pairs a → EditOf decls tokens env files pairs b → a ≡ b }
{}
