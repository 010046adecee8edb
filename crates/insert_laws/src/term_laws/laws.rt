// Laws of the values of metavariables. The functions do nothing.
ghost use Rattle.std.specs.Prelude.{◌≡◌, ℕ, ◌<◌, List, true, false};
ghost use Rattle.c_terms.specs.declared.tree.Tree.{Tree};
ghost use Rattle.c_types.specs.Tables.{ItemTypes};
ghost use Rattle.cfg_build.specs.declared.cfg_graph.label.NodeKind.{NodeKind};
ghost use Rattle.cfg_build.specs.CfgGraph.Flow.{Flow, IsSound, count_of};
ghost use Rattle.smpl_terms.specs.declared.var.Var.{Var};
ghost use Rattle.smpl_terms.specs.Environments.{Environment};
ghost use Rattle.smpl_patch.specs.declared.pattern.VarDecl.{VarDecl};
ghost use Rattle.smpl_patch.specs.declared.pattern.PatToken.{PatToken};
ghost use Rattle.smpl_patch.specs.declared.pattern.Spot.{Spot};
ghost use Rattle.smpl_patch.specs.Patterns.{held_sure};
ghost use Rattle.pat_match.specs.Spots.{fits_at};
ghost use Rattle.ctl_formula.specs.Plain.{Plain};
ghost use Rattle.ctl_fixpoint.specs.CtlHolds.Parts.{EachPattern};
ghost use Rattle.ctl_fixpoint.specs.CtlHolds.BoundLaw.{SureStand};
ghost use Rattle.wit_forest.specs.WitTrees.Forest.{is_hidden};
ghost use Rattle.insert_laws.specs.TermLaws.Terms.{is_term, IsNoPosition, HidesBlocks, HasTerms};

/// If a form fits a subtree, each sure variable of the compared part of the form has a term, unless it is a position at a
/// token. Does nothing.
pub fn metavariables_have_terms()
    ensures { (decls : List VarDecl) (tokens : List PatToken) (types : ItemTypes) (env : Environment) (x : Var) (s : Spot)
        (k : NodeKind) (form t : Tree) → IsNoPosition tokens x → fits_at decls tokens types env s k form t ≡ true →
        held_sure decls tokens s x form ≡ true → is_term (env x) ≡ true }
{}

/// Where a formula holds, each variable that it binds has a term, and where it doesn't hold, each variable that it binds
/// when it fails has a term, except for positions and the hidden variables of blocks. Does nothing.
pub fn bound_metavariables_have_terms()
    ensures { (decls : List VarDecl) (tokens : List PatToken) (g : Flow) → IsSound g → (m : ℕ) → 0 < m →
        (f : Plain) → EachPattern (SureStand decls tokens) f → HidesBlocks f → (s : ℕ) → s < count_of g →
        (env : Environment) (x : Var) → IsNoPosition tokens x → is_hidden x ≡ false →
        HasTerms decls tokens g m f s env x }
{}
