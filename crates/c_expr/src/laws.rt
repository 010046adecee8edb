// What holds of the trees of ranges but is not the contract of any single call.
ghost use Rattle.std.specs.Prelude.{◌≡◌, IsTrue, List};
ghost use Rattle.c_terms.specs.declared.token.Token.{Token};
ghost use Rattle.c_terms.specs.declared.tree.Tree.{Tree};
ghost use Rattle.c_rows.specs.declared.kind.Kind.{Kind};
ghost use Rattle.c_rows.specs.Look.{Names};
ghost use Rattle.c_rows.specs.Trees.{IsTreeOf, stands_alone};

/// Two trees of one kind of the same tokens under the same names are equal, ids included.
pub fn ranges_have_one_tree()
    ensures { (kind : Kind) (names : Names) (tokens : List Token) (t u : Tree) → IsTrue (stands_alone kind)
        → IsTreeOf kind names tokens t → IsTreeOf kind names tokens u → t ≡ u }
{}
