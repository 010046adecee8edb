//! Laws of the types of an item's expressions: what a table gives for an expression is what the definitions give at its place.
//!
//! The types are defined place by place, by what is declared around the place. A table has them by keys: the id of an
//! expression's first token, and its levels. The same expression can be in an item many times, so this needs that no id
//! is twice in the item.
//!
//! - [`keys_tell_places_apart`]: two expressions that have tokens and the same key are at the same place.
//! - [`tables_are_by_place`]: so a table gives each such expression the type at its place, and tells of a name whether it is
//!   local there.
//! - [`read_items_meet_premises`], [`read_tables_are_by_place`]: this holds of the items of a text in which no id is twice.
//! - [`premises_are_needed`]: of types it need not hold without tokens, nor where an id is twice.
//! - [`same_types_are_equal`], [`typed_variables_take_their_types`]: so a variable that wants a type takes exactly the
//!   expressions that have it at their places.
//!
//! The functions do nothing.
#![tactic(auto)]

ghost use Rattle.std.specs.Prelude.{◌≡◌, ◌<◌, ◌++◌, ◌^◌, ℕ, List, length, Option, Some, nat_eq, slice_get};
ghost use Rattle.std.specs.List.{IsDistinct};
ghost use Rattle.c_lexer.specs.Ids.{ids_of};
ghost use Rattle.c_lexer.specs.Lexes.{Numbered};
ghost use Rattle.c_lexer.specs.Pieces.{TextPiece};
ghost use Rattle.c_terms.specs.declared.tree.Tree.{Tree};
ghost use Rattle.c_terms.specs.Trees.{leaves, levels};
ghost use Rattle.c_terms.specs.Places.{Place, parts};
ghost use Rattle.c_terms.specs.Shapes.{is_expression_part};
ghost use Rattle.c_types.specs.declared.ty.Ty.{Ty};
ghost use Rattle.c_types.specs.TreeKeys.{key_of};
ghost use Rattle.c_types.specs.Tables.{type_in, is_local};
ghost use Rattle.c_typing.specs.declared.scope.Scope.{Scope};
ghost use Rattle.c_typing.specs.Declarations.{own_name};
ghost use Rattle.c_typing.specs.Parts.{part_types};
ghost use Rattle.c_typing.specs.ItemTypes.{item_types};
ghost use Rattle.cpp_lines.specs.declared.reading.Item.{Item};
ghost use Rattle.cpp_lines.specs.declared.reading.Item.TheVariants.{Parsed};
ghost use Rattle.c_file.specs.Reads.{Reads};
ghost use Rattle.type_laws.specs.Places.{ids, is_local_at};

mod wanted;

pub use wanted::{same_types_are_equal, typed_variables_take_their_types};

/// In an item of fewer than 2^64 levels in which no id is twice, two expressions of which the first has a token are at
/// the same place if they have the same key. Does nothing.
pub fn keys_tell_places_apart()
    ensures { (item : Tree) (j k : ℕ) (p q : Place) → IsDistinct nat_eq (ids item) → levels item < 2 ^ 64
        → slice_get (parts is_expression_part item) j ≡ Some p → slice_get (parts is_expression_part item) k ≡ Some q
        → 0 < length (leaves p.tree) → key_of p.tree ≡ key_of q.tree → p ≡ q }
{}

/// In an item of fewer than 2^64 levels in which no id is twice, the table has for each expression that has a token the
/// type that the definitions give at its place, or none if they give none (`types`). An expression is a local name by the
/// table exactly if it is a name that the item declares around its place (`locals`). Does nothing.
pub fn tables_are_by_place()
    ensures types { (s : Scope) (item : Tree) (k : ℕ) (p : Place) (ty : Option Ty)
        → IsDistinct nat_eq (ids item) → levels item < 2 ^ 64
        → slice_get (parts is_expression_part item) k ≡ Some p
        → slice_get (part_types (s.names ++ own_name item) s.fields item) k ≡ Some ty
        → 0 < length (leaves p.tree) → type_in (item_types s item) p.tree ≡ ty }
    ensures locals { (s : Scope) (item : Tree) (k : ℕ) (p : Place) → IsDistinct nat_eq (ids item)
        → slice_get (parts is_expression_part item) k ≡ Some p
        → is_local (item_types s item) p.tree ≡ is_local_at item p }
{}

/// In the pieces of a text whose ids count up from a number, no id is twice (`texts`). In an item that is read from pieces
/// in which no id is twice, no id is twice either (`ids`). Each item that is read has fewer than 2^64 levels (`levels`),
/// and each expression in it has a token (`tokens`). Does nothing.
pub fn read_items_meet_premises()
    ensures texts { (next : ℕ) (pieces : List TextPiece) → Numbered next pieces → IsDistinct nat_eq (ids_of pieces) }
    ensures ids { (pieces : List TextPiece) (items : List Item) (k : ℕ) (t : Tree) → IsDistinct nat_eq (ids_of pieces)
        → Reads pieces items → slice_get items k ≡ Some (Parsed t) → IsDistinct nat_eq (ids t) }
    ensures levels { (pieces : List TextPiece) (items : List Item) (k : ℕ) (t : Tree) → Reads pieces items
        → slice_get items k ≡ Some (Parsed t) → levels t < 2 ^ 64 }
    ensures tokens { (pieces : List TextPiece) (items : List Item) (k : ℕ) (t : Tree) (j : ℕ) (p : Place) → Reads pieces items
        → slice_get items k ≡ Some (Parsed t) → slice_get (parts is_expression_part t) j ≡ Some p
        → 0 < length (leaves p.tree) }
{}

/// For each item that is read from pieces in which no id is twice, the table has for each expression the type that the
/// definitions give at its place, or none if they give none (`types`), and an expression is a local name by the table
/// exactly if it is a name that the item declares around its place (`locals`). Does nothing.
pub fn read_tables_are_by_place()
    ensures types { (s : Scope) (pieces : List TextPiece) (items : List Item) (k : ℕ) (t : Tree) (j : ℕ) (p : Place)
        (ty : Option Ty) → IsDistinct nat_eq (ids_of pieces) → Reads pieces items → slice_get items k ≡ Some (Parsed t)
        → slice_get (parts is_expression_part t) j ≡ Some p
        → slice_get (part_types (s.names ++ own_name t) s.fields t) j ≡ Some ty
        → type_in (item_types s t) p.tree ≡ ty }
    ensures locals { (s : Scope) (pieces : List TextPiece) (items : List Item) (k : ℕ) (t : Tree) (j : ℕ) (p : Place)
        → IsDistinct nat_eq (ids_of pieces) → Reads pieces items → slice_get items k ≡ Some (Parsed t)
        → slice_get (parts is_expression_part t) j ≡ Some p
        → is_local (item_types s t) p.tree ≡ is_local_at t p }
{}

/// The types of a table need not be those at the places of expressions without tokens (`tokens`), nor those of an item in
/// which an id is twice (`ids`). Does nothing.
pub fn premises_are_needed()
    ensures tokens { ((s : Scope) (item : Tree) (k : ℕ) (p : Place) (ty : Option Ty)
        → IsDistinct nat_eq (ids item) → levels item < 2 ^ 64
        → slice_get (parts is_expression_part item) k ≡ Some p
        → slice_get (part_types (s.names ++ own_name item) s.fields item) k ≡ Some ty
        → type_in (item_types s item) p.tree ≡ ty) → ⊥ }
    ensures ids { ((s : Scope) (item : Tree) (k : ℕ) (p : Place) (ty : Option Ty) → levels item < 2 ^ 64
        → slice_get (parts is_expression_part item) k ≡ Some p
        → slice_get (part_types (s.names ++ own_name item) s.fields item) k ≡ Some ty
        → 0 < length (leaves p.tree) → type_in (item_types s item) p.tree ≡ ty) → ⊥ }
{}
