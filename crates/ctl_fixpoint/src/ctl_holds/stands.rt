// Whether the sure variables of a formula's patterns occur in them.
ghost use Rattle.std.specs.Prelude.{◌≡◌, true, IfOk};
ghost use Rattle.ctl_formula.specs.Formulas.{plain};
ghost use Rattle.ctl_fixpoint.specs.CtlHolds.Parts.{OwnPattern, EachPattern};
ghost use Rattle.ctl_fixpoint.specs.CtlHolds.BoundLaw.{SureStand};

use c_terms::{NoMemory, Text};
use ctl_formula::{Formula, Node};
use smpl_patch::{PatToken, Pattern, VarDecl, is_sure, stands};
use smpl_terms::Var;
use std::alloc::Global;

/// Whether `absent` neither occurs in the pattern nor is sure in it. If so, no disjunction without branches makes variables
/// sure.
fn pattern_stands(decls: &[VarDecl], tokens: &[PatToken], p: &Pattern, absent: &Var) -> bool
    ensures { result ≡ true → SureStand decls.now tokens.now p.now }
{
    if is_sure(decls, tokens, p, absent) {
        return false;
    }
    if stands(decls, tokens, p, absent) {
        return false;
    }
    true
}

fn node_stands(decls: &[VarDecl], tokens: &[PatToken], node: &Node, absent: &Var) -> bool
    ensures { result ≡ true → OwnPattern (SureStand decls.now tokens.now) node.now }
{
    match node {
        Node::Atom(p) => pattern_stands(decls, tokens, p, absent),
        Node::BraceOpen(p, _) => pattern_stands(decls, tokens, p, absent),
        Node::BraceClose(p, _) => pattern_stands(decls, tokens, p, absent),
        _ => true,
    }
}

/// Whether each sure variable of the formula's patterns occurs in its pattern, as [`bound_variables_have_values`] requires.
/// Returns true only if this is so. It is so for every formula whose patterns a patch spells; only a disjunction without
/// branches can break it. Linear in the patterns of the formula's table.
///
/// [`bound_variables_have_values`]: crate::ctl_holds::bound_variables_have_values
pub fn sure_variables_stand(alloc: Global, f: &Formula) -> Result<bool, NoMemory>
    ensures stand { IfOk result (λ yes. yes ≡ true
        → EachPattern (SureStand f.now.decls f.now.tokens) (plain f.now)) }
{
    let absent = Var {
        rule: 0,
        name: Text::from_bytes(alloc, b"")?,
    };
    let _root = f.root();
    for i in 0..f.len() {
        if !node_stands(f.decls(), f.tokens(), f.node(i), &absent) {
            return Ok(false);
        }
    }
    Ok(true)
}
