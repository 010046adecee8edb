// Laws that hold for all formulas.
ghost use Rattle.std.specs.Prelude.{◌≡◌, ◌<◌, ◌^◌, ℕ, List, true, false};
ghost use Rattle.c_terms.specs.declared.tree.Tree.{Tree};
ghost use Rattle.cfg_build.specs.CfgGraph.Flow.{count_of, with_types};
ghost use Rattle.c_types.specs.Tables.{ItemTypes};
ghost use Rattle.cfg_build.specs.Graphs.{node_count, graph_of};
ghost use Rattle.smpl_terms.specs.Environments.{Environment};
ghost use Rattle.smpl_patch.specs.declared.pattern.VarDecl.{VarDecl};
ghost use Rattle.smpl_patch.specs.declared.pattern.PatToken.{PatToken};
ghost use Rattle.ctl_formula.specs.Plain.{Plain};
ghost use Rattle.ctl_fixpoint.specs.CtlHolds.Holding.{Holds};
ghost use Rattle.ctl_fixpoint.specs.CtlHolds.Rounds.{holds};
ghost use Rattle.ctl_fixpoint.specs.RequiredWords.Words.{needs, has_word};

/// If a formula needs a word and no token of an item is that word, the formula holds at no node of the item's graph, under
/// no environment, whatever is known of the types of the item's expressions. Calling this function does nothing.
pub fn formulas_need_words()
    ensures holding { (w : List ℕ) (decls : List VarDecl) (tokens : List PatToken) (t : Tree) (types : ItemTypes)
        → node_count t < 2 ^ 32
        → has_word w t ≡ false → (m : ℕ) → 0 < m → (f : Plain) → needs w f ≡ true → (s : ℕ) → s < count_of (graph_of t)
        → (env : Environment) → Holds decls tokens (with_types (graph_of t) types) m f s env → ⊥ }
    ensures computed { (w : List ℕ) (decls : List VarDecl) (tokens : List PatToken) (t : Tree) (types : ItemTypes)
        → node_count t < 2 ^ 32
        → has_word w t ≡ false → (m : ℕ) → (f : Plain) → needs w f ≡ true → (s : ℕ) → s < count_of (graph_of t)
        → (env : Environment) → holds decls tokens (with_types (graph_of t) types) m f s env ≡ false }
{}
