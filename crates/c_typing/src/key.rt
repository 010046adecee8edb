// Fields as they are looked up.
ghost use Rattle.std.specs.Prelude.{◌≡◌, IfOk};

use c_terms::{NoMemory, Text};
use std::alloc::Global;
use std::hash::{Hash, Hasher};

/// A field as it is looked up: whether it is one of a union, the tag, and the field's name.
#[derive(Drop)]
pub(crate) struct FieldKey {
    is_union: bool,
    tag: Text,
    name: Text,
}

impl FieldKey {
    pub(crate) fn of(
        alloc: Global,
        is_union: bool,
        tag: &[u8],
        name: &[u8],
    ) -> Result<FieldKey, NoMemory>
        ensures { IfOk result (λ key. key ≡ record { is_union = is_union; tag = tag.now; name = name.now }) }
    {
        Ok(FieldKey {
            is_union,
            tag: Text::from_bytes(alloc, tag)?,
            name: Text::from_bytes(alloc, name)?,
        })
    }
}

impl PartialEq for FieldKey {
    ghost use Rattle.std.proofs.Common.{rules};
    ghost use Rattle.std.specs.Cmp.Rules.{comparing};
    ghost use Rattle.c_typing.specs.Fields.{same_key};

    ghost eq = { same_key };

    ghost laws = { Prim.search (comparing, rules) };

    fn eq(&self, other: &FieldKey) -> bool {
        self.is_union == other.is_union
            && self.tag.as_bytes() == other.tag.as_bytes()
            && self.name.as_bytes() == other.name.as_bytes()
    }
}

impl Eq for FieldKey {
    ghost use Rattle.std.proofs.Common.{rules};
    ghost use Rattle.std.specs.Cmp.Rules.{comparing};

    ghost laws = { Prim.search (comparing, rules) };
}

impl Hash for FieldKey {
    ghost use Rattle.std.proofs.Common.{rules};
    ghost use Rattle.std.specs.Cmp.Rules.{hashing};
    ghost use Rattle.c_typing.specs.Fields.{key_input};

    ghost hash_input = { key_input };

    ghost respects_eq = { Prim.search (hashing, rules) };

    fn hash<H: Hasher>(&self, state: &mut H) {
        self.is_union.hash(state);
        self.tag.as_bytes().hash(state);
        self.name.as_bytes().hash(state);
    }
}
