// Laws of all sets, which no single call shows.
ghost use Rattle.std.specs.Prelude.{List};
ghost use Rattle.smpl_terms.specs.declared.var.Var.{Var};
ghost use Rattle.smpl_terms.specs.declared.value.Value.{Value};
ghost use Rattle.env_sets.specs.Sets.{Entries};
ghost use Rattle.env_sets.specs.Laws.{StandForSame, IsMeet, IsJoin, IsComplement, IsProjection, IsGiven};

/// The complement of a complement stands for the same as the set.
pub fn complement_twice()
    ensures { (a once twice : Entries) → IsComplement a once → IsComplement once twice →
        StandForSame twice a }
{}

/// The complement of a meet is the join of the complements.
pub fn de_morgan()
    ensures { (a b both outside not_a not_b either : Entries) → IsMeet a b both →
        IsComplement both outside
        → IsComplement a not_a → IsComplement b not_b → IsJoin not_a not_b either → StandForSame outside either }
{}

/// A projection of a join is the join of the projections.
pub fn project_a_join()
    ensures { (x : Var) (a b either of_either of_a of_b joined : Entries) → IsJoin a b either →
        IsProjection x either of_either
        → IsProjection x a of_a → IsProjection x b of_b → IsJoin of_a of_b joined → StandForSame of_either joined }
{}

/// If some variables are given values, what remains of a meet is the meet of what remains of both sets.
pub fn given_a_meet()
    ensures { (env : List (Var × Value)) (a b both of_both of_a of_b met : Entries) →
        IsMeet a b both → IsGiven env both of_both
        → IsGiven env a of_a → IsGiven env b of_b → IsMeet of_a of_b met → StandForSame of_both met }
{}
