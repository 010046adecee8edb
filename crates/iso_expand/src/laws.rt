// What patches keep when their patterns get forms.
ghost use Rattle.std.specs.Prelude.{◌≡◌, List, Some, map, nat_eq, slice_get};
ghost use Rattle.c_terms.specs.declared.tree.Tree.{Tree as Form};
ghost use Rattle.smpl_patch.specs.declared.pattern.Pattern.{Pattern as Atom};
ghost use Rattle.smpl_patch.specs.declared.pattern.PatToken.{PatToken as Word};
ghost use Rattle.smpl_patch.specs.declared.rule.Iso.{Iso as Isomorphism};
ghost use Rattle.smpl_patch.specs.declared.rule.Rule.{Rule as Whole};
ghost use Rattle.smpl_patch.specs.Bodies.{body};
ghost use Rattle.smpl_patch.specs.Shapes.{is_formed_body, patterns_body};
ghost use Rattle.smpl_patch.specs.Sound.{none_alike};
ghost use Rattle.iso_expand.specs.Bodies.{expanded_pattern};
ghost use Rattle.iso_expand.specs.Patches.{IsExpandedRule};

/// Proves what a rule with all forms keeps of the rule that it is made from.
///
/// - `patterns`: its patterns are those of the rule with their forms, in the same order.
/// - `first`: the first form of a pattern stays the first.
/// - `atoms`: its patterns have different numbers if those of the rule have.
/// - `formed`: dots and nests are in allowed places, and disjunctions and conjunctions have enough branches, if it is so in
///   the rule.
///
/// Does nothing.
pub fn rules_keep_their_shape()
    ensures patterns { (isos : List Isomorphism) (r s : Whole) → IsExpandedRule isos r s →
        patterns_body (body s.body) ≡ map (expanded_pattern isos r.tokens) (patterns_body (body r.body)) }
    ensures first { (isos : List Isomorphism) (tokens : List Word) (p : Atom) (t : Form) → slice_get p.forms 0 ≡ Some t →
        slice_get (expanded_pattern isos tokens p).forms 0 ≡ Some t }
    ensures atoms { (isos : List Isomorphism) (r s : Whole) → IsExpandedRule isos r s →
        none_alike (λ (p : Atom) (q : Atom). nat_eq p.atom q.atom) (patterns_body (body s.body))
        ≡ none_alike (λ (p : Atom) (q : Atom). nat_eq p.atom q.atom) (patterns_body (body r.body)) }
    ensures formed { (isos : List Isomorphism) (r s : Whole) → IsExpandedRule isos r s →
        is_formed_body (body s.body) ≡ is_formed_body (body r.body) }
{}
