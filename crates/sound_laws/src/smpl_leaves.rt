//! The law that no token of a pattern is lost when a body is read.
//!
//! - [`no_token_is_lost`]: the elements of a body have its tokens, in their order.
#![tactic(auto)]

ghost use Rattle.std.specs.Prelude.{◌≡◌, ℕ, List};
ghost use Rattle.c_terms.specs.declared.token.Token.{Token};
ghost use Rattle.c_terms.specs.declared.tree.Tree.{Tree as Term};
ghost use Rattle.smpl_patch.specs.declared.elem.Dots.{Dots as Gap};
ghost use Rattle.smpl_patch.specs.declared.elem.Elem.{Elem as Part};
ghost use Rattle.smpl_patch.specs.Bodies.{body as plain};
ghost use Rattle.smpl_meta.specs.declared.patterns.Placed.{Placed as Word};
ghost use Rattle.smpl_body.specs.SmplWhen.Cutting.{cut};
ghost use Rattle.smpl_body.specs.SmplElem.Elements.{elements};
ghost use Rattle.smpl_body.specs.declared.reading.Form.{Form};
ghost use Rattle.smpl_body.specs.Spelled.{IsRead};
ghost use Rattle.smpl_body.specs.Bodies.{IsBody};
ghost use Rattle.sound_laws.specs.SmplLeaves.Leaves.{code, body_tokens};

/// The concatenation of the patterns of a body's elements has the tokens of the body in their order, except for those of
/// clauses (`body`). The same holds of the elements of any tokens that are read, including the code of clauses (`read`).
/// Dots and the signs of patterns don't count on either side: among statements, no pattern has them. Does nothing.
pub fn no_token_is_lost()
    ensures body { (ps : List Word) (es : List Part) → IsBody ps es → code (body_tokens (plain es)) ≡ code (cut ps).main }
    ensures read { (forms : List Form) (tokens : List Token) (tree : Term) → IsRead forms tokens tree
        → (gap : ℕ → Gap) (first : ℕ) → code (body_tokens (plain (elements gap first tree))) ≡ code tokens }
{}
