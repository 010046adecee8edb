// Laws of forms.
ghost use Rattle.std.specs.Prelude.{◌≡◌, List, Some, slice_get};
ghost use Rattle.c_terms.specs.declared.tree.Tree.{Tree};
ghost use Rattle.smpl_patch.specs.declared.pattern.PatToken.{PatToken};
ghost use Rattle.smpl_patch.specs.declared.rule.Iso.{Iso};
ghost use Rattle.iso_expand.specs.IsoForms.Forms.{forms};

/// The tree itself is the first of its forms.
pub fn the_tree_comes_first()
    ensures { (tokens : List PatToken) (isos : List Iso) (t : Tree) → slice_get (forms tokens isos t) 0 ≡ Some t }
{}
