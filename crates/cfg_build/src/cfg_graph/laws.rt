// What holds of the values of every graph.
ghost use Rattle.std.specs.Prelude.{◌≡◌, ◌++◌, ℕ, List, Some, slice_get, Contains};
ghost use Rattle.c_terms.specs.declared.label.Label.{Label};
ghost use Rattle.c_terms.specs.declared.list.Member.{Member};
ghost use Rattle.c_terms.specs.declared.shape.Shape.TheVariants as shape;
ghost use Rattle.c_terms.specs.declared.token.Token.{Token};
ghost use Rattle.c_terms.specs.declared.tree.Tree.{Tree};
ghost use Rattle.c_terms.specs.declared.tree.Tree.TheVariants.{Branch};
ghost use Rattle.c_terms.specs.Lists.{members, run};
ghost use Rattle.c_terms.specs.Places.{subtree};
ghost use Rattle.c_terms.specs.Shapes.{shape_of};
ghost use Rattle.c_terms.specs.Trees.{leaves};
ghost use Rattle.cfg_build.specs.declared.cfg_graph.label.NodeLabel.{NodeLabel};
ghost use Rattle.cfg_build.specs.CfgGraph.Flow.{Flow};
ghost use Rattle.cfg_build.specs.CfgGraph.Values.{terms_of, places_of};

/// The tree of each label is a value of its graph, and so is the id of its brace.
pub fn labels_are_values()
    ensures terms { (g : Flow) (n : ℕ) (l : NodeLabel) → slice_get g.labels n ≡ Some l → Contains (terms_of g) l.tree }
    ensures places { (g : Flow) (n : ℕ) (l : NodeLabel) → slice_get g.labels n ≡ Some l → Contains (places_of g) l.brace }
{}

/// Each subtree of a label's tree, each run of the members of a list in it, including the empty run, and the id of each of
/// its tokens are values of its graph.
pub fn parts_are_values()
    ensures subtrees { (g : Flow) (n : ℕ) (l : NodeLabel) (path : List ℕ) (t : Tree) → slice_get g.labels n ≡ Some l
        → subtree l.tree path ≡ Some t → Contains (terms_of g) t }
    ensures runs { (g : Flow) (n : ℕ) (l : NodeLabel) (path : List ℕ) (k : Label) (cs : List Tree) (before ms after : List Member)
        → slice_get g.labels n ≡ Some l → subtree l.tree path ≡ Some (Branch k cs) → shape_of k ≡ shape.List
        → members cs ≡ before ++ ms ++ after → Contains (terms_of g) (run k ms) }
    ensures tokens { (g : Flow) (n : ℕ) (l : NodeLabel) (a : Token) → slice_get g.labels n ≡ Some l
        → Contains (leaves l.tree) a → Contains (places_of g) a.id }
{}
