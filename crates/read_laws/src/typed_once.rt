//! A typed declaration is parted into its specifiers and declarators in one way.
//!
//! - [`typed_declarations_are_parted_once`] is a law: its clauses hold, and it does nothing. smpl_meta says how far the
//!   specifiers reach by the words in front (`specs_length`). The law says that they can't reach as far as anything else.
#![tactic(auto)]

ghost use Rattle.std.specs.Prelude.{◌≡◌, ◌↔◌, ◌++◌, ℕ, List, length, Option, Some, true};
ghost use Rattle.std.specs.List.{list_all};
ghost use Rattle.c_terms.specs.declared.tree.Tree.{Tree as Term};
ghost use Rattle.c_rows.specs.Branches.{is_plain};
ghost use Rattle.smpl_patch.specs.declared.wanted.NameWanted.{NameWanted as Names};
ghost use Rattle.smpl_lexer.specs.declared.token.PatchToken.{PatchToken as Word};
ghost use Rattle.smpl_meta.specs.declared.item.Item.{Item as Entry};
ghost use Rattle.smpl_meta.specs.Typed.{specs_length, AreSpecs, AreDeclarators, IsTyped};
ghost use Rattle.read_laws.specs.TypedOnce.{literal, AreParts};

/// No token of the following being a metavariable, these clauses hold.
///
/// - `reach`: specifiers that define no structure and no enumeration, followed by declarators with names, reach exactly as
///   far as smpl_meta has it. So no tokens can be parted so in two ways.
/// - `exact`: tokens are a typed declaration of some items exactly if they can be parted so, and the declarators have these
///   items.
///
/// Does nothing.
pub fn typed_declarations_are_parted_once()
    ensures reach { (types : List (List ℕ)) (names : Names) (front back : List Word) (specs : Term) (items : List Entry) →
        list_all literal front ≡ true → AreSpecs types front (Some specs) → is_plain specs ≡ true →
        AreDeclarators types names specs back (Some items) → specs_length (front ++ back) ≡ length front }
    ensures exact { (types : List (List ℕ)) (names : Names) (words : List Word) (items : List Entry) →
        list_all literal words ≡ true → IsTyped types names words (Some items) ↔ AreParts types names words items }
{}
