// What holds of the layouts of all edits but is not the contract of any single call.
ghost use Rattle.std.specs.Prelude.{◌≡◌, ℕ, List};
ghost use Rattle.c_lexer.specs.Pieces.{TextPiece};
ghost use Rattle.cpp_lines.specs.declared.reading.Item.{Item};
ghost use Rattle.edit_marks.specs.declared.tidy.walk.TidiedEdits.{TidiedEdits};
ghost use Rattle.edit_marks.specs.Tidy.Same.{AreSame};
ghost use Rattle.edit_unparse.specs.Tidy.Made.{frame_of};
ghost use Rattle.edit_bodies.specs.declared.lay.TidyLayout.{TidyLayout};
ghost use Rattle.edit_bodies.specs.Laid.{IsBroken, IsLaidOut};

use c_expr::ranges_have_one_tree;
use c_lexer::cut_once;
use cpp_lines::shown_once;

/// The definitions determine what [`crate::lay_out`] returns. Does nothing.
///
/// - `frames`: edits have at most one layout.
/// - `apart`: edits that break a body have none.
/// - `broken`: the token at which they do is one.
pub fn edits_have_one_layout()
    ensures frames { (pieces : List TextPiece) (items : List Item) (made same : TidiedEdits) (one other : TidyLayout) →
        AreSame made same → IsLaidOut pieces items made one → IsLaidOut pieces items same other →
        frame_of one.layout ≡ frame_of other.layout }
    ensures apart { (pieces : List TextPiece) (items : List Item) (made same : TidiedEdits) (laid : TidyLayout) (token : ℕ) →
        AreSame made same → IsLaidOut pieces items made laid → IsBroken pieces items same token → ⊥ }
    ensures broken { (pieces : List TextPiece) (items : List Item) (made same : TidiedEdits) (one other : ℕ) →
        AreSame made same → IsBroken pieces items made one → IsBroken pieces items same other → one ≡ other }
{
    cut_once();
    shown_once();
    ranges_have_one_tree();
}
