// What holds of the items of all texts but is not the contract of any single call.
ghost use Rattle.std.specs.Prelude.{◌≡◌, List};
ghost use Rattle.c_lexer.specs.Pieces.{TextPiece};
ghost use Rattle.cpp_lines.specs.declared.reading.Item.{Item};
ghost use Rattle.c_file.specs.Reads.{Reads};

use c_expr::ranges_have_one_tree;
use cpp_lines::shown_once;

/// A text is read in one way: the items that [`crate::read_file`] returns are the only ones that the definition allows. Does
/// nothing.
pub fn read_once()
    ensures { (pieces : List TextPiece) (left right : List Item) →
        Reads pieces left → Reads pieces right → left ≡ right }
{
    shown_once();
    ranges_have_one_tree();
}
