// Laws of environments, whatever the ids of their tokens.
ghost use Rattle.std.specs.Prelude.{◌≡◌, ℕ, List, map};
ghost use Rattle.smpl_terms.specs.declared.var.Var.{Var};
ghost use Rattle.smpl_patch.specs.declared.rule.Dep.{Dep};
ghost use Rattle.env_parts.specs.Parts.{Pairs, bare_env};
ghost use Rattle.rule_envs.specs.declared.file_env.FileEnv.{FileEnv};
ghost use Rattle.rule_envs.specs.Shares as shares;
ghost use Rattle.rule_envs.specs.FileEnvs as spec;

/// What a rule is run under and the values that witnesses export are the same without the ids of tokens as with them. Does
/// nothing.
pub fn ids_do_not_count()
    ensures projections { (defined : List (List ℕ)) (had : List ℕ) (depends : Dep) (inherited : List Var) (file_envs : List FileEnv) →
        map bare_env (shares.projections defined had depends inherited file_envs)
        ≡ shares.projections defined had depends inherited (map shares.bare_file_env file_envs) }
    ensures exported { (exports : List Var) (envs : List Pairs) →
        map bare_env (spec.exported exports envs) ≡ spec.exported exports (map bare_env envs) }
{}
