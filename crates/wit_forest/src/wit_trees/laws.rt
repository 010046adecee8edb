// Laws that hold for all forests.
ghost use Rattle.std.specs.Prelude.{◌≡◌, ℕ, List};
ghost use Rattle.cfg_build.specs.CfgGraph.Flow.{Flow};
ghost use Rattle.smpl_terms.specs.Environments.{Environment};
ghost use Rattle.smpl_patch.specs.declared.pattern.VarDecl.{VarDecl};
ghost use Rattle.smpl_patch.specs.declared.pattern.PatToken.{PatToken};
ghost use Rattle.ctl_formula.specs.Plain.{Plain};
ghost use Rattle.ctl_fixpoint.specs.CtlHolds.Rounds.{holds};
ghost use Rattle.wit_forest.specs.WitOrder.Forests.{Rise};
ghost use Rattle.wit_forest.specs.WitTrees.Graphs.{forest_of};
ghost use Rattle.wit_forest.specs.WitTrees.Alike.{Alike};

/// The trees of a forest are in order, each once.
pub fn forests_rise()
    ensures { (decls : List VarDecl) (tokens : List PatToken) (g : Flow) (f : Plain) (s : ℕ)
        (env : Environment) → Rise decls (forest_of decls tokens g f s env) }
{}

/// If two environments give each variable the same value, ids aside, a formula holds under both or under neither, and its
/// forests are equal.
pub fn alike_environments()
    ensures holding { (decls : List VarDecl) (tokens : List PatToken) (g : Flow) (m : ℕ)
        (f : Plain) (s : ℕ) (d e : Environment) → Alike d e
        → holds decls tokens g m f s d ≡ holds decls tokens g m f s e }
    ensures forests { (decls : List VarDecl) (tokens : List PatToken) (g : Flow) (f : Plain)
        (s : ℕ) (d e : Environment) → Alike d e
        → forest_of decls tokens g f s d ≡ forest_of decls tokens g f s e }
{}
