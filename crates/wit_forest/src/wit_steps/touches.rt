// What an atom touches.
ghost use Rattle.std.specs.Prelude.{◌≡◌, ◌<◌, ◌++◌, IfOk, map};
ghost use Rattle.cfg_build.specs.CfgGraph.Flow.{count_of};
ghost use Rattle.smpl_terms.specs.Environments.{total};
ghost use Rattle.smpl_patch.specs.declared.witness.Witness.TheVariants.{Touch};
ghost use Rattle.wit_forest.specs.WitSteps.Touches.{touches_of, own_touches};

use crate::wit_trees::is_touched;
use c_terms::NoMemory;
use cfg_build::Graph;
use ctl_formula::{Formula, Node};
use pat_match::{Alignment, PatternContext, align};
use smpl_patch::{Pattern, Witness};
use smpl_terms::Env;
use std::alloc::Global;

/// Adds a touch for each place.
fn put_places(
    found: &mut Vec<Witness>,
    places: Vec<Alignment>,
    atom: u32,
    s: u32,
) -> Result<(), NoMemory>
    ensures { IfOk result (λ _. found.new.items
        ≡ found.old.items ++ map (λ a. Touch s atom a.path) places.items) }
{
    for place in places {
        found.push(Witness::Touch(s, atom, place.path))?;
    }
    Ok(())
}

fn put_touches(
    alloc: Global,
    g: &Graph,
    f: &Formula,
    found: &mut Vec<Witness>,
    p: &Pattern,
    s: u32,
    env: &Env,
) -> Result<(), NoMemory>
    requires { s < count_of g.now }
    ensures { IfOk result (λ _. found.new.items ≡ found.old.items
        ++ touches_of f.now.decls f.now.tokens g.now p.now s (total env.now)) }
{
    if !is_touched(f.tokens(), p) {
        return Ok(());
    }
    if p.forms.len() > u32::MAX as usize {
        return Err(NoMemory);
    }
    let types = g.types();
    let context = PatternContext {
        decls: f.decls(),
        tokens: f.tokens(),
        types: &types,
    };
    let places = align(alloc, p, &context, &g.label(s), env)?;
    put_places(found, places, p.atom, s)
}

/// Adds a touch for each place where an atom or a brace is aligned at the node, if it is touched. Adds nothing for other
/// nodes of the table. A pattern of 2^32 forms or more fails as if memory had run out.
pub fn put_own(
    alloc: Global,
    g: &Graph,
    f: &Formula,
    found: &mut Vec<Witness>,
    node: &Node,
    s: u32,
    env: &Env,
) -> Result<(), NoMemory>
    requires { s < count_of g.now }
    ensures own { IfOk result (λ _. found.new.items ≡ found.old.items
        ++ own_touches f.now.decls f.now.tokens g.now node.now s (total env.now)) }
{
    match node {
        Node::Atom(p) => put_touches(alloc, g, f, found, p, s, env),
        Node::BraceOpen(p, _) => put_touches(alloc, g, f, found, p, s, env),
        Node::BraceClose(p, _) => put_touches(alloc, g, f, found, p, s, env),
        _ => Ok(()),
    }
}
