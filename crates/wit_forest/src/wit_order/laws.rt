// Laws that hold for all trees of witnesses.
ghost use Rattle.std.specs.Prelude.{◌≡◌, true, List};
ghost use Rattle.std.specs.Cmp.{IsTotalOrder};
ghost use Rattle.std.specs.Ordering.{is_eq};
ghost use Rattle.smpl_patch.specs.declared.pattern.VarDecl.{VarDecl};
ghost use Rattle.smpl_patch.specs.declared.witness.Witness.{Witness as Tree};
ghost use Rattle.wit_forest.specs.WitOrder.Same.{same_witness, same_forest};
ghost use Rattle.wit_forest.specs.WitOrder.Order.{witness_order};
ghost use Rattle.wit_forest.specs.WitOrder.Forests.{HaveSame, Rise};
ghost use Rattle.wit_forest.specs.WitOrder.Sizes.{forest_size};

/// The order of trees is total.
pub fn witnesses_are_ordered()
    ensures { (decls : List VarDecl) → IsTotalOrder (witness_order decls) }
{}

/// Two trees are equal in the order exactly if they are the same, whatever is declared.
pub fn equal_where_same()
    ensures { (decls : List VarDecl) (v w : Tree) → is_eq (witness_order decls v w) ≡ same_witness v w }
{}

/// A forest has one list of its trees: if two ascending lists have the same trees, each tree is the same as its counterpart,
/// and both lists have the same size.
pub fn one_list_a_forest()
    ensures same { (decls : List VarDecl) (vs ws : List Tree) → Rise decls vs → Rise decls ws → HaveSame vs ws
        → same_forest vs ws ≡ true }
    ensures size { (vs ws : List Tree) → same_forest vs ws ≡ true → forest_size vs ≡ forest_size ws }
{}
