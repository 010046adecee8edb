// Laws of bodies: functions whose contracts hold, and that do nothing.
ghost use Rattle.std.specs.Prelude.{◌≡◌, ◌≤◌, ◌↔◌, ℕ, List, [], None, Some};
ghost use Rattle.c_terms.specs.declared.tree.Tree.{Tree as Term};
ghost use Rattle.c_rows.specs.Depth.{opens_of};
ghost use Rattle.c_rows.specs.Limits.{most_open};
ghost use Rattle.smpl_patch.specs.declared.fault.PatchFault.{PatchFault as Fault};
ghost use Rattle.smpl_patch.specs.declared.elem.Dots.{Dots as Gap};
ghost use Rattle.smpl_patch.specs.declared.elem.Elem.{Elem as Part};
ghost use Rattle.smpl_patch.specs.Bodies.{body as plain};
ghost use Rattle.smpl_meta.specs.declared.patterns.Placed.{Placed as Word};
ghost use Rattle.smpl_body.specs.SmplWhen.Cutting.{cut};
ghost use Rattle.smpl_body.specs.SmplElem.Elements.{atoms, elements};
ghost use Rattle.smpl_body.specs.Deep.{deep_fault, tokens, IsFirstTooMany};
ghost use Rattle.smpl_body.specs.Bodies.{IsBody, IsBodyFault, nested_hosts};
ghost use Rattle.smpl_body.specs.Numbered.{numbers, numbers_from};

use c_expr::ranges_have_one_tree;

/// A body has at most one list of elements, at most one fault, and never both. Does nothing.
pub fn bodies_are_read_once()
    ensures body { (ps : List Word) (one other : List Part) → IsBody ps one → IsBody ps other → one ≡ other }
    ensures fault { (ps : List Word) (end : ℕ) (one other : Fault) → IsBodyFault ps end one →
        IsBodyFault ps end other → one ≡ other }
    ensures apart { (ps : List Word) (end : ℕ) (es : List Part) (fault : Fault) → IsBody ps es →
        IsBodyFault ps end fault → ⊥ }
{
    ranges_have_one_tree();
}

/// A body has more than 200 brackets open at once exactly if the parser's count says so, and the fault is at the first
/// token that exceeds the limit. Does nothing.
pub fn brackets_are_counted()
    ensures count { (ps : List Word) → (deep_fault ps ≡ None) ↔ (opens_of (tokens ps) ≤ most_open) }
    ensures first { (ps : List Word) (fault : Fault) → deep_fault ps ≡ Some fault → IsFirstTooMany ps fault }
{}

/// If a body is read, no clause has code within the code of another. Does nothing.
pub fn code_has_no_code()
    ensures { (ps : List Word) (es : List Part) → IsBody ps es → nested_hosts (cut ps).codes ≡ [] }
{}

/// The patterns of a tree's elements, except those of `when` code, are numbered in order, with no number left out. Does
/// nothing.
pub fn patterns_are_numbered()
    ensures { (tree : Term) (gap : ℕ → Gap) (first : ℕ) →
        numbers (plain (elements gap first tree)) ≡ numbers_from first (atoms tree) }
{}
