// Laws of all patterns.
ghost use Rattle.std.specs.Prelude.{◌≡◌, ℕ, true, List, Option};
ghost use Rattle.c_terms.specs.declared.token.Token.{Token};
ghost use Rattle.c_terms.specs.declared.label.Label.{Label};
ghost use Rattle.c_terms.specs.declared.list.Member.{Member};
ghost use Rattle.c_terms.specs.declared.tree.Tree.{Tree};
ghost use Rattle.cfg_build.specs.declared.cfg_graph.label.NodeKind.{NodeKind};
ghost use Rattle.smpl_terms.specs.declared.var.Var.{Var};
ghost use Rattle.smpl_terms.specs.Environments.{Environment};
ghost use Rattle.smpl_patch.specs.declared.pattern.VarDecl.{VarDecl};
ghost use Rattle.smpl_patch.specs.declared.pattern.PatToken.{PatToken};
ghost use Rattle.smpl_patch.specs.declared.pattern.Spot.{Spot};
ghost use Rattle.smpl_patch.specs.Patterns.{held_sure};
ghost use Rattle.c_types.specs.Tables.{ItemTypes};
ghost use Rattle.pat_match.specs.Runs.{Piece, runs_from, is_left, leftmost, runs_align};
ghost use Rattle.pat_match.specs.Spots.{fits_at};
ghost use Rattle.pat_match.specs.Valued.{has_value};

/// If a form fits a subtree, each sure variable of the compared part of the form has a value of the subtree: a subtree of it, a
/// run of members of one of its lists, or the place of one of its tokens.
pub fn sure_variables_have_values()
    ensures { (decls : List VarDecl) (tokens : List PatToken) (types : ItemTypes) (env : Environment) (x : Var)
        (s : Spot)
        (k : NodeKind) (form t : Tree) → fits_at decls tokens types env s k form t ≡ true
        → held_sure decls tokens s x form ≡ true → has_value t (env x) ≡ true }
{}

/// If the members of a pattern's list can take runs of a file's members, the leftmost alignment is one in which they do, and
/// none is further left: from the left, each takes as few members as it can.
pub fn leftmost_alignments()
    ensures meets { (decls : List VarDecl) (tokens : List PatToken) (env : Environment) (l : Label)
        (before : Option Token) (ps : List Piece) (ms : List Member) → runs_from decls tokens env l before ps ms ≡ true
        → runs_align decls tokens env l before ps ms (leftmost decls tokens env l before ps ms) ≡ true }
    ensures first { (decls : List VarDecl) (tokens : List PatToken) (env : Environment) (l : Label)
        (before : Option Token) (ps : List Piece) (ms : List Member) (ks : List ℕ)
        → runs_align decls tokens env l before ps ms ks ≡ true
        → is_left (leftmost decls tokens env l before ps ms) ks ≡ true }
    ensures only { (decls : List VarDecl) (tokens : List PatToken) (env : Environment) (l : Label)
        (before : Option Token) (ps : List Piece) (ms : List Member) (ks : List ℕ)
        → runs_align decls tokens env l before ps ms ks ≡ true → runs_from decls tokens env l before ps ms ≡ true }
{}
