// Edits of one version of a text.
ghost use Rattle.std.specs.Prelude.{◌≡◌};
ghost use Rattle.edit_marks.specs.EditConflict.Same.{side_number};

use c_terms::Text;
use sqlite_items::Items;
use std::hash::{Hash, Hasher};

/// Where an insert goes: directly before its token's place, or directly after it.
#[derive(Clone, Copy, Debug, PartialEq, Eq)]
pub enum Side {
    Before,
    After,
}

impl Side {
    /// Returns the side's place in the order of sides, from 0.
    pub fn number(self) -> u8
        ensures value { result ≡ side_number self }
    {
        match self {
            Side::Before => 0,
            Side::After => 1,
        }
    }
}

/// A text that is inserted at a token's place.
#[derive(Drop)]
pub struct Insert {
    pub token: u32,
    pub side: Side,
    /// Whether it is from `++` lines: other such inserts may be at the same place.
    pub many: bool,
    pub text: Text,
}

impl PartialEq for Insert {
    ghost use Rattle.std.proofs.Common.{rules};
    ghost use Rattle.std.specs.Cmp.Rules.{comparing};
    ghost use Rattle.edit_marks.specs.EditConflict.Same.{same_insert};

    ghost eq = { same_insert };

    ghost laws = { Prim.search (comparing, rules) };

    fn eq(&self, other: &Insert) -> bool {
        self.token == other.token
            && self.side.number() == other.side.number()
            && self.many == other.many
            && self.text.as_bytes() == other.text.as_bytes()
    }
}

impl Eq for Insert {
    ghost use Rattle.std.proofs.Common.{rules};
    ghost use Rattle.std.specs.Cmp.Rules.{comparing};

    ghost laws = { Prim.search (comparing, rules) };
}

impl Hash for Insert {
    ghost use Rattle.std.proofs.Common.{rules};
    ghost use Rattle.std.specs.Cmp.Rules.{hashing};
    ghost use Rattle.edit_marks.specs.EditConflict.Same.{insert_input};

    ghost hash_input = { insert_input };

    ghost respects_eq = { Prim.search (hashing, rules) };

    fn hash<H: Hasher>(&self, state: &mut H) {
        self.token.hash(state);
        self.side.number().hash(state);
        self.many.hash(state);
        self.text.as_bytes().hash(state);
    }
}

/// What is removed from a text and what is inserted. Tokens are given by their numbers in this version of the text.
#[derive(Drop)]
pub struct Edit {
    pub removed: Items<u32>,
    pub inserts: Items<Insert>,
}

impl PartialEq for Edit {
    ghost use Rattle.std.specs.Cmp.{partial_equiv_from_equiv};
    ghost use Rattle.edit_marks.specs.EditConflict.Same.{same_edit};
    ghost use Rattle.edit_marks.specs.EditConflict.SameLaws.{edit_equiv};

    ghost eq = { same_edit };

    ghost laws = { partial_equiv_from_equiv edit_equiv };

    fn eq(&self, other: &Edit) -> bool {
        self.removed.as_slice() == other.removed.as_slice()
            && self.inserts.as_slice() == other.inserts.as_slice()
    }
}

impl Eq for Edit {
    ghost use Rattle.edit_marks.specs.EditConflict.SameLaws.{edit_equiv};

    ghost laws = { edit_equiv };
}

impl Hash for Edit {
    ghost use Rattle.edit_marks.specs.EditConflict.Same.{edit_input};
    ghost use Rattle.edit_marks.specs.EditConflict.SameLaws.{edits_feed_alike};

    ghost hash_input = { edit_input };

    ghost respects_eq = { edits_feed_alike.fed };

    fn hash<H: Hasher>(&self, state: &mut H) {
        self.removed.as_slice().hash(state);
        self.inserts.as_slice().hash(state);
    }
}
