// Laws that hold for the forests of all parts.
ghost use Rattle.std.specs.Prelude.{◌≡◌, ◌||◌, ◌+◌, ◌<◌, ℕ, true, false, List};
ghost use Rattle.std.specs.List.{list_any};
ghost use Rattle.cfg_build.specs.CfgGraph.Flow.{Flow, IsSound, count_of};
ghost use Rattle.smpl_terms.specs.declared.var.Var.{Var as Name};
ghost use Rattle.smpl_terms.specs.declared.value.Value.{Value as Datum};
ghost use Rattle.smpl_terms.specs.Environments.{Environment, change};
ghost use Rattle.env_sets.specs.Sets.{Entries, set_denotes};
ghost use Rattle.smpl_patch.specs.declared.pattern.VarDecl.{VarDecl};
ghost use Rattle.smpl_patch.specs.declared.pattern.PatToken.{PatToken};
ghost use Rattle.smpl_patch.specs.declared.witness.Witness.{Witness as Tree};
ghost use Rattle.ctl_formula.specs.Plain.{Plain};
ghost use Rattle.ctl_formula.specs.Tables.{at, plain_of};
ghost use Rattle.ctl_formula.specs.declared.node.Node.{Node as Item};
ghost use Rattle.ctl_fixpoint.specs.CtlHolds.Rounds.{holds};
ghost use Rattle.ctl_fixpoint.specs.CtlHolds.Values.{is_among};
ghost use Rattle.wit_forest.specs.WitOrder.Forests.{has};
ghost use Rattle.wit_forest.specs.WitTrees.Graphs.{forest_of};
ghost use Rattle.wit_forest.specs.WitSteps.Steps.{kids, is_quantifier};
ghost use Rattle.wit_forest.specs.WitSteps.Choices.{chosen, AllRise};
ghost use Rattle.wit_forest.specs.WitSteps.Touches.{own_touches};

/// Except for quantifiers, the forest of a node of a table, at a node of the graph, consists of exactly what the former
/// touches there and the forests of the parts that it leads to. `part` is its number.
pub fn forest_by_steps()
    ensures { (decls : List VarDecl) (tokens : List PatToken) (g : Flow) → IsSound g
        → (parts : List Plain) (env : Environment) (z : Tree) (n : Item) → is_quantifier n ≡ false
        → (part s : ℕ) → s < count_of g → at parts part ≡ plain_of parts n
        → has (forest_of decls tokens g (plain_of parts n) s env) z
        ≡ (has (own_touches decls tokens g n s env) z
        || list_any (λ k. has (forest_of decls tokens g (at parts k.0) k.1 env) z)
        (kids g (λ i k. holds decls tokens g (count_of g + 1) (at parts i) k env) n part s)) }
{}

/// The values that the entries of a set assign to a variable are exactly those under which the set has the environment, if
/// the latter are among finitely many. This is so if the set denotes where a formula holds that binds the variable: each
/// such value is one of the graph.
pub fn choices_are_all()
    ensures { (x : Name) (env : Environment) (values : List Datum) (v : Datum) (entries : Entries)
        → AllRise entries
        → ((u : Datum) → set_denotes entries (change env x u) ≡ true → is_among values u ≡ true)
        → chosen x env entries v ≡ set_denotes entries (change env x v) }
{}
