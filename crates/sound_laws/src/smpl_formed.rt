//! Laws of the elements of bodies: their shape, their number, and the tokens of their patterns.
//!
//! - [`bodies_are_formed`] is a law: its clauses hold, and it does nothing.
//!
//! The clauses are about each body that is read, whoever reads it. smpl_sound uses them for the rules of whole patches.
#![tactic(auto)]

ghost use Rattle.std.specs.Prelude.{◌≡◌, ◌&&◌, ◌<◌, ℕ, Bool, List, ◌∷◌, true, nat_lt, nat_eq, length, map};
ghost use Rattle.std.specs.List.{list_all};
ghost use Rattle.c_terms.specs.declared.token.Token.{Token};
ghost use Rattle.c_terms.specs.Trees.{leaves, width};
ghost use Rattle.smpl_patch.specs.declared.pattern.VarDecl.{VarDecl as Variable};
ghost use Rattle.smpl_patch.specs.declared.pattern.PatToken.{PatToken as Anchored};
ghost use Rattle.smpl_patch.specs.declared.pattern.Pattern.{Pattern as Shown};
ghost use Rattle.smpl_patch.specs.declared.elem.Elem.{Elem as Part};
ghost use Rattle.smpl_patch.specs.Bodies.{body as plain};
ghost use Rattle.smpl_patch.specs.Shapes.{is_formed_body, patterns_body, lengths_body};
ghost use Rattle.smpl_patch.specs.Sound.{has_form, none_alike};
ghost use Rattle.smpl_meta.specs.declared.patterns.Placed.{Placed as Word};
ghost use Rattle.smpl_body.specs.Bodies.{IsBody};
ghost use Rattle.sound_laws.specs.SmplFormed.Bodies.{tokens_of, CountFrom, AllStand};

use smpl_body::bodies_are_parted_once;

/// The elements of a body that is read from fewer than 2^31 tokens satisfy the following clauses; `atoms` needs no bound on
/// the tokens.
///
/// - `formed`: dots and nests are first or last in a sequence only directly inside a block, and no two of them are
///   adjacent; a disjunction and a conjunction have at least two branches.
/// - `few`: a sequence has fewer than 2^32 elements, and a list of sequences fewer than 2^32 sequences.
/// - `atoms`: if the tokens are numbered from 0, the patterns have different numbers, including those of `when` code.
/// - `patterns`: each pattern has a form, and each token of its forms passes any test that all tokens of the body pass.
/// - `narrow`: a pattern has fewer than 2^32 forms, and a branch of a form fewer than 2^32 children.
/// - `sure`: each sure variable of a pattern occurs in it.
///
/// Does nothing.
pub fn bodies_are_formed()
    ensures formed { (ps : List Word) (es : List Part) → length ps < 2147483648 → IsBody ps es →
        is_formed_body (plain es) ≡ true }
    ensures few { (ps : List Word) (es : List Part) → length ps < 2147483648 → IsBody ps es →
        list_all (λ n. nat_lt n 4294967296) (length es ∷ lengths_body (plain es)) ≡ true }
    ensures atoms { (ps : List Word) (es : List Part) → CountFrom 0 ps → IsBody ps es →
        none_alike (λ (p q : Shown). nat_eq p.atom q.atom) (patterns_body (plain es)) ≡ true }
    ensures patterns { (ok : Token → Bool) (ps : List Word) (es : List Part) → length ps < 2147483648 →
        list_all ok (tokens_of ps) ≡ true → IsBody ps es →
        list_all (λ (p : Shown). has_form p.forms && list_all (λ f. list_all ok (leaves f)) p.forms)
        (patterns_body (plain es)) ≡ true }
    ensures narrow { (ps : List Word) (es : List Part) → length ps < 2147483648 → IsBody ps es →
        list_all (λ (p : Shown). list_all (λ n. nat_lt n 4294967296) (length p.forms ∷ map width p.forms))
        (patterns_body (plain es)) ≡ true }
    ensures sure { (decls : List Variable) (tokens : List Anchored) (ps : List Word) (es : List Part) →
        length ps < 2147483648 → IsBody ps es → AllStand decls tokens (patterns_body (plain es)) }
{
    bodies_are_parted_once();
}
