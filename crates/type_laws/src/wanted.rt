//! What variables that want a type take.
//!
//! - [`same_types_are_equal`]: two types are the same exactly if they are equal.
//! - [`typed_variables_take_their_types`]: at each place of an item that is read, a variable that wants a type takes exactly
//!   the expressions that have it there.
ghost use Rattle.std.specs.Prelude.{◌≡◌, ◌↔◌, ℕ, List, true, false, Some, nat_eq, slice_get};
ghost use Rattle.std.specs.List.{IsDistinct};
ghost use Rattle.c_lexer.specs.Ids.{ids_of};
ghost use Rattle.c_lexer.specs.Pieces.{TextPiece};
ghost use Rattle.c_terms.specs.declared.token.MetaKind.{MetaKind};
ghost use Rattle.c_terms.specs.declared.tree.Tree.{Tree};
ghost use Rattle.c_terms.specs.Places.{Place, subtree};
ghost use Rattle.c_types.specs.declared.ty.Ty.{Ty};
ghost use Rattle.c_types.specs.Types.{same_type};
ghost use Rattle.c_typing.specs.declared.scope.Scope.{Scope};
ghost use Rattle.c_typing.specs.ItemTypes.{item_types};
ghost use Rattle.cpp_lines.specs.declared.reading.Item.{Item};
ghost use Rattle.cpp_lines.specs.declared.reading.Item.TheVariants.{Parsed};
ghost use Rattle.c_file.specs.Reads.{Reads};
ghost use Rattle.smpl_terms.specs.Environments.{Environment};
ghost use Rattle.smpl_patch.specs.declared.pattern.VarDecl.{VarDecl as Variable};
ghost use Rattle.smpl_patch.specs.declared.wanted.TypeWanted.TheVariants.{Is};
ghost use Rattle.smpl_patch.specs.declared.wanted.Wanted.{Wanted};
ghost use Rattle.smpl_patch.specs.Wants.{is_typed};
ghost use Rattle.pat_match.specs.Wants.{is_pointer, is_wanted};
ghost use Rattle.pat_match.specs.Tokens.{meta_fits};
ghost use Rattle.type_laws.specs.Typed.{HasType, of_type, of_pointers, without_type};

/// Two types are the same exactly if they are equal. Does nothing.
pub fn same_types_are_equal()
    ensures { (s t : Ty) → (same_type s t ≡ true) ↔ (s ≡ t) }
{}

/// For each subtree of each item that is read from pieces in which no id is twice, the following clauses hold, whatever
/// the items before it declare.
///
/// - `takes`: a variable of a type takes it exactly if it is an expression that has this very type at its place.
/// - `pointers`: a variable of pointers takes it exactly if it is an expression whose type at its place is that many times
///   a pointer to something, or an array of it.
/// - `fits`: whatever else is asked of a variable of a type, it fits exactly if it would fit without the type, and it is
///   an expression that has this very type at its place.
/// - `unknown`: what has no type at its place is taken by no variable that wants a type.
///
/// Does nothing.
pub fn typed_variables_take_their_types()
    ensures takes { (s : Scope) (pieces : List TextPiece) (items : List Item) (k : ℕ) (t : Tree) (p : Place) (ty : Ty)
        → IsDistinct nat_eq (ids_of pieces) → Reads pieces items → slice_get items k ≡ Some (Parsed t)
        → subtree t p.path ≡ Some p.tree → (is_wanted (item_types s t) (of_type ty) p.tree ≡ true) ↔ HasType s t p ty }
    ensures pointers { (s : Scope) (pieces : List TextPiece) (items : List Item) (k : ℕ) (t : Tree) (p : Place) (stars : ℕ)
        → IsDistinct nat_eq (ids_of pieces) → Reads pieces items → slice_get items k ≡ Some (Parsed t)
        → subtree t p.path ≡ Some p.tree → (is_wanted (item_types s t) (of_pointers stars) p.tree ≡ true)
        ↔ ((ty : Ty) × HasType s t p ty × (is_pointer stars ty ≡ true)) }
    ensures fits { (s : Scope) (pieces : List TextPiece) (items : List Item) (k : ℕ) (t : Tree) (p : Place)
        (decls : List Variable) (env : Environment) (kind : MetaKind) (d : Variable) (ty : Ty)
        → IsDistinct nat_eq (ids_of pieces) → Reads pieces items → slice_get items k ≡ Some (Parsed t)
        → subtree t p.path ≡ Some p.tree → d.wanted.ty ≡ Is ty
        → (meta_fits decls env (item_types s t) kind (Some d) p.tree ≡ true)
        ↔ ((meta_fits decls env (item_types s t) kind (Some (without_type d)) p.tree ≡ true) × HasType s t p ty) }
    ensures unknown { (s : Scope) (pieces : List TextPiece) (items : List Item) (k : ℕ) (t : Tree) (p : Place) (w : Wanted)
        → IsDistinct nat_eq (ids_of pieces) → Reads pieces items → slice_get items k ≡ Some (Parsed t)
        → subtree t p.path ≡ Some p.tree → is_typed w.ty ≡ true → ((ty : Ty) → HasType s t p ty → ⊥)
        → is_wanted (item_types s t) w p.tree ≡ false }
{}
