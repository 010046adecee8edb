// What holds of all terms, and is not visible in any single call.
ghost use Rattle.std.specs.Prelude.{◌≡◌, ◌↔◌, ◌||◌, ℕ, List, Some, slice_get, true, IsTrue};
ghost use Rattle.std.specs.List.{IsDistinct};
ghost use Rattle.std.specs.declared.cmp.Ordering.TheVariants.{Less, Equal};
ghost use Rattle.std.specs.Ordering.{ordering_reverse, is_le};
ghost use Rattle.c_terms.specs.declared.token.TokenKind.{TokenKind};
ghost use Rattle.c_terms.specs.declared.label.Label.{Label};
ghost use Rattle.c_terms.specs.declared.tree.Tree.{Tree};
ghost use Rattle.c_terms.specs.Numbers.{kind_number, label_number};
ghost use Rattle.c_terms.specs.Bare.{bare};
ghost use Rattle.c_terms.specs.Same.{same_bytes, same_tree};
ghost use Rattle.c_terms.specs.Order.{tree_order};
ghost use Rattle.c_terms.specs.Names.{with_name, listed_names};
ghost use Rattle.c_terms.specs.Shapes.{is_expression_part};
ghost use Rattle.c_terms.specs.Places.{Place, parts, subtree};

/// No two kinds of tokens have the same number, and no two labels do.
pub fn numbers_tell_apart()
    ensures kinds { (j k : TokenKind) → kind_number j ≡ kind_number k → j ≡ k }
    ensures labels { (l k : Label) → label_number l ≡ label_number k → l ≡ k }
{}

/// [`same_term`](crate::same_term) is equality of the trees without their ids, and so an equivalence.
pub fn same_term_is_equality()
    ensures ids_aside { (t u : Tree) → IsTrue (same_tree t u) ↔ (bare t ≡ bare u) }
    ensures reflexive { (t : Tree) → IsTrue (same_tree t t) }
    ensures symmetric { (t u : Tree) → same_tree t u ≡ same_tree u t }
    ensures transitive { (t u v : Tree) → IsTrue (same_tree t u) → IsTrue (same_tree u v) →
        IsTrue (same_tree t v) }
{}

/// [`term_order`](crate::term_order) is a total order, and equal exactly if the terms are the same.
pub fn term_order_is_total()
    ensures equal { (t u : Tree) → (tree_order t u ≡ Equal) ↔ IsTrue (same_tree t u) }
    ensures antisymmetric { (t u : Tree) → tree_order t u ≡ ordering_reverse (tree_order u t) }
    ensures transitive { (t u v : Tree) → tree_order t u ≡ Less → tree_order u v ≡ Less →
        tree_order t v ≡ Less }
    ensures total { (t u : Tree) → IsTrue (is_le (tree_order t u) || is_le (tree_order u t)) }
    ensures same_place { (t u v : Tree) → IsTrue (same_tree t u) → tree_order t v ≡ tree_order u v }
{}

/// No name occurs twice: the listed names differ, and [`Names::add`](crate::Names::add) keeps them
/// distinct.
pub fn names_stay_distinct()
    ensures listed { IsDistinct same_bytes listed_names }
    ensures added { (names : List (List ℕ)) (name : List ℕ)
        → IsDistinct same_bytes names → IsDistinct same_bytes (with_name names name) }
{}

/// The paths of [`expression_paths`](crate::expression_paths) lead to the parts: each to the tree
/// that the definition gives with it.
pub fn paths_lead_to_parts()
    ensures { (t : Tree) (k : ℕ) (p : Place) → slice_get (parts is_expression_part t) k ≡ Some p →
        subtree t p.path ≡ Some p.tree }
{}
