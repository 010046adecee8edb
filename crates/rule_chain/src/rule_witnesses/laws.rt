// Laws of the witnesses of all formulas.
ghost use Rattle.std.specs.Prelude.{◌≡◌, ℕ, List, map};
ghost use Rattle.cfg_build.specs.CfgGraph.Flow.{Flow};
ghost use Rattle.smpl_terms.specs.declared.var.Var.{Var};
ghost use Rattle.smpl_patch.specs.declared.witness.RuleWitness.{RuleWitness};
ghost use Rattle.env_parts.specs.Parts.{Pairs, bare_env};
ghost use Rattle.ctl_formula.specs.Formulas.{FormulaOf};
ghost use Rattle.rule_chain.specs.RuleWitnesses.Bare.{bare_witness};
ghost use Rattle.rule_chain.specs.RuleWitnesses.Jobs.{touches_and_binds, witnesses_of};

/// The witnesses under an environment are, without ids, those under the environment without ids. Witnesses that are equal
/// without ids have the same number of touches and binds.
pub fn ids_make_no_difference()
    ensures witnesses { (f : FormulaOf) (g : Flow) (exports : List Var) (rule item : ℕ) (env : Pairs)
        → map bare_witness (witnesses_of f g exports rule item env)
        ≡ map bare_witness (witnesses_of f g exports rule item (bare_env env)) }
    ensures size { (vs ws : List RuleWitness) → map bare_witness vs ≡ map bare_witness ws → touches_and_binds vs ≡ touches_and_binds ws }
{}
