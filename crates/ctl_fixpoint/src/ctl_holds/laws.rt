// Laws that hold for all formulas.
ghost use Rattle.std.specs.Prelude.{ℕ, ◌<◌, List};
ghost use Rattle.std.specs.Bool.{Decides};
ghost use Rattle.cfg_build.specs.CfgGraph.Flow.{Flow, IsSound, count_of};
ghost use Rattle.smpl_terms.specs.declared.var.Var.{Var};
ghost use Rattle.smpl_terms.specs.Environments.{Environment};
ghost use Rattle.smpl_patch.specs.declared.pattern.VarDecl.{VarDecl};
ghost use Rattle.smpl_patch.specs.declared.pattern.PatToken.{PatToken};
ghost use Rattle.ctl_formula.specs.Plain.{Plain};
ghost use Rattle.ctl_fixpoint.specs.CtlHolds.Holding.{Holds};
ghost use Rattle.ctl_fixpoint.specs.CtlHolds.Rounds.{holds};
ghost use Rattle.ctl_formula.specs.Formulas.{FormulaOf, IsFormula, plain};
ghost use Rattle.ctl_fixpoint.specs.CtlHolds.Parts.{IsPart, HasNumber, EachPattern};
ghost use Rattle.ctl_fixpoint.specs.CtlHolds.BoundLaw.{SureStand, HasValues};

/// Whether a formula holds can be computed: m rounds over all nodes decide an until exactly as walks of m nodes do.
pub fn walks_by_rounds()
    ensures { (decls : List VarDecl) (tokens : List PatToken) (g : Flow) → IsSound g → (m : ℕ)
        → 0 < m
        → (f : Plain) (s : ℕ) → s < count_of g → (env : Environment)
        → Decides (holds decls tokens g m f s env) (Holds decls tokens g m f s env) }
{}

/// Where a formula holds, each variable that it binds has a value of the graph. Where it doesn't hold, each variable that it
/// binds on failure has one.
pub fn bound_variables_have_values()
    ensures { (decls : List VarDecl) (tokens : List PatToken) (g : Flow) → IsSound g → (m : ℕ)
        → 0 < m
        → (f : Plain) → EachPattern (SureStand decls tokens) f → (s : ℕ) → s < count_of g
        → (env : Environment) (x : Var) → HasValues decls tokens g m f s env x }
{}

/// Each part of a formula is a node of its table, and so has a number there.
pub fn every_part_has_a_number()
    ensures { (f : FormulaOf) → IsFormula f → (h : Plain) → IsPart h (plain f)
        → HasNumber f.nodes h }
{}
