// Laws of readings. The functions do nothing.
ghost use Rattle.std.specs.Prelude.{◌≡◌, List, All};
ghost use Rattle.c_lexer.specs.Pieces.{TextPiece, text_of};
ghost use Rattle.c_lexer.specs.Lexes.{Cuts};
ghost use Rattle.c_lexer.specs.Ids.{ids_of};
ghost use Rattle.cpp_lines.specs.declared.reading.Item.{Item};
ghost use Rattle.c_file.specs.Reads.{Reads};
ghost use Rattle.text_laws.specs.ReadingLaws.Sound.{IsSoundItem};

use c_file::read_once;

/// There is one way to cut a text into pieces whose tokens have given ids, and one way to read it. Does nothing.
pub fn readings_are_one()
    ensures pieces { (left right : List TextPiece) → Cuts left → Cuts right →
        text_of left ≡ text_of right → ids_of left ≡ ids_of right → left ≡ right }
    ensures items { (left right : List TextPiece) (a b : List Item) → Cuts left → Cuts right →
        text_of left ≡ text_of right → ids_of left ≡ ids_of right →
        Reads left a → Reads right b → a ≡ b }
{
    read_once();
}

/// Each token of a tree that is read is a token of C that is no Stray, with a text of its kind, is one of the text's
/// pieces, and doesn't follow a Stray, not even after blanks. Does nothing.
pub fn trees_are_sound()
    ensures { (pieces : List TextPiece) (items : List Item) → Cuts pieces → Reads pieces items
        → All (IsSoundItem pieces) items }
{}
