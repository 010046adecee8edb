// What holds of the spans of all touches but is not the contract of any single call. None of these functions does anything.
ghost use Rattle.std.specs.Prelude.{◌≡◌, ◌<◌, ◌≤◌, ℕ, List, Some, length, slice_get};
ghost use Rattle.std.specs.List.Sorted.{IsNonDecreasing};
ghost use Rattle.c_terms.specs.declared.tree.Tree.{Tree};
ghost use Rattle.smpl_patch.specs.declared.witness.Witness.{Witness};
ghost use Rattle.wit_places.specs.declared.spans.TokenSpan.{TokenSpan as Span};
ghost use Rattle.wit_places.specs.Touches.{touch_count};
ghost use Rattle.wit_places.specs.Spans.{loaded_ids, touch_spans};

/// A forest has as many spans as touches. Does nothing.
pub fn touches_have_spans()
    ensures { (loaded : ℕ) (t : Tree) (forest : List Witness) → length (touch_spans loaded t forest) ≡ touch_count forest }
{}

/// A span begins and ends at tokens of the loaded text, so that both have a place there. Does nothing.
pub fn ends_are_loaded()
    ensures { (loaded : ℕ) (t : Tree) (forest : List Witness) (k : ℕ) (s : Span) →
        slice_get (touch_spans loaded t forest) k ≡ Some (Some s) → (s.first < loaded) × (s.last < loaded) }
{}

/// If the ids of the loaded tokens of an item don't fall from left to right, no span ends before it begins. Does nothing.
pub fn spans_go_forward()
    ensures { (loaded : ℕ) (t : Tree) (forest : List Witness) (k : ℕ) (s : Span) → IsNonDecreasing (loaded_ids loaded t) →
        slice_get (touch_spans loaded t forest) k ≡ Some (Some s) → s.first ≤ s.last }
{}
