// Laws of the tokens of alignments. The functions do nothing.
ghost use Rattle.std.specs.Prelude.{◌≡◌, ℕ, Bool, List, All, Some, true, false, slice_get};
ghost use Rattle.c_terms.specs.declared.token.Token.{Token};
ghost use Rattle.c_terms.specs.declared.tree.Tree.{Tree};
ghost use Rattle.c_types.specs.Tables.{ItemTypes};
ghost use Rattle.cfg_build.specs.declared.cfg_graph.label.NodeKind.{NodeKind as Kind};
ghost use Rattle.cfg_build.specs.declared.cfg_graph.label.NodeKind.TheVariants as kind;
ghost use Rattle.cfg_build.specs.declared.cfg_graph.label.NodeLabel.{NodeLabel as Label};
ghost use Rattle.cfg_build.specs.Graphs.{graph_of};
ghost use Rattle.smpl_terms.specs.Environments.{Environment};
ghost use Rattle.smpl_patch.specs.declared.pattern.VarDecl.{VarDecl};
ghost use Rattle.smpl_patch.specs.declared.pattern.PatToken.{PatToken};
ghost use Rattle.smpl_patch.specs.declared.pattern.Spot.{Spot};
ghost use Rattle.smpl_patch.specs.declared.rule.Iso.{Iso as Isomorphism};
ghost use Rattle.pat_match.specs.Spots.{fits_at, alignment_at};
ghost use Rattle.iso_expand.specs.IsoForms.Replacing.{is_plain};
ghost use Rattle.iso_expand.specs.IsoForms.Forms.{forms};
ghost use Rattle.insert_laws.specs.AlignedLaws.Compared.{compared, IsCompared, is_head_tree, HasNoBodies};

/// If a form fits a subtree at a node, and a pattern token that is aligned there passes a test, some token of the compared
/// part of the form passes it, for any test. The premise is that a tree that a simple node holds as a whole has no bodies.
/// Does nothing.
pub fn aligned_tokens_are_compared()
    ensures { (decls : List VarDecl) (tokens : List PatToken) (types : ItemTypes) (env : Environment) (q : Token → Bool)
        (s : Spot) (k : Kind) (form t : Tree) → HasNoBodies s k t → fits_at decls tokens types env s k form t ≡ true →
        All (IsCompared q s form) (alignment_at decls tokens types env s k form t) }
{}

/// In the graph of an item the tree of a simple node has no bodies. Does nothing.
pub fn simple_nodes_have_no_bodies()
    ensures { (t : Tree) (n : ℕ) (l : Label) → slice_get (graph_of t).labels n ≡ Some l → l.kind ≡ kind.Simple →
        is_head_tree l.tree ≡ false }
{}

/// If a token of the compared part of a form of a tree passes a test that only tokens with a position or plus code pass,
/// some token of the compared part of the tree passes it, under any isomorphisms. Does nothing.
pub fn forms_keep_plus_code()
    ensures { (isos : List Isomorphism) (tokens : List PatToken) (q : Token → Bool) →
        ((a : Token) → q a ≡ true → is_plain (slice_get tokens a.id) ≡ false) → (s : Spot) (t : Tree) →
        All (λ f. compared q s f ≡ true → compared q s t ≡ true) (forms tokens isos t) }
{}
