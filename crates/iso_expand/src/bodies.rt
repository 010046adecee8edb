// Bodies with all forms.
ghost use Rattle.std.specs.Prelude.{◌≡◌, ◌+◌, ◌≤◌, ◌<◌, length, IfOk, IfErr};
ghost use Rattle.smpl_patch.specs.Bodies.{body, element};
ghost use Rattle.smpl_patch.proofs.BodyLemmas.{bodies as bodies_of, dots_of};
ghost use Rattle.iso_expand.specs.IsoForms.Forms.{Refused};
ghost use Rattle.iso_expand.specs.Bodies as spec;
ghost use Rattle.iso_expand.specs.Stepped.{NoRoom};

use crate::iso_forms::{FormsFault, forms_of};
use c_terms::Tree;
use smpl_patch::{Dots, Elem, Iso, PatToken, Pattern};
use sqlite_items::Items;
use std::alloc::Global;

fn forms_of_first(
    alloc: Global,
    isos: &[Iso],
    tokens: &[PatToken],
    written: &[Tree],
    room: usize,
) -> Result<Items<Tree>, FormsFault>
    ensures forms { IfOk result (λ all. all ≡ spec.forms_of_first isos.now tokens.now written.now) }
    ensures few { IfOk result (λ all. length all ≤ room) }
    ensures refused { IfErr result (Refused room (spec.forms_of_first isos.now tokens.now written.now)) }
{
    match written.first() {
        None => Ok(Items::new(alloc)),
        Some(tree) => {
            if room == 0 {
                return Err(FormsFault::TooMany);
            }
            forms_of(alloc, isos, tokens, tree, room)
        }
    }
}

fn expanded(
    alloc: Global,
    isos: &[Iso],
    tokens: &[PatToken],
    p: &Pattern,
    room: &mut usize,
) -> Result<Pattern, FormsFault>
    ensures pattern { IfOk result (λ q. q ≡ spec.expanded_pattern isos.now tokens.now p.now) }
    ensures room { IfOk result (λ _. room.new + spec.forms_pattern isos.now tokens.now p.now ≡ room.old) }
    ensures refused { IfErr result (NoRoom room.old (spec.forms_pattern isos.now tokens.now p.now)) }
{
    let forms = forms_of_first(alloc, isos, tokens, p.forms.as_slice(), *room)?;
    *room -= forms.len();
    Ok(Pattern {
        atom: p.atom,
        spot: p.spot,
        forms,
    })
}

fn expanded_option(
    alloc: Global,
    isos: &[Iso],
    tokens: &[PatToken],
    p: &Option<Pattern>,
    room: &mut usize,
) -> Result<Option<Pattern>, FormsFault>
    ensures pattern { IfOk result (λ q. q ≡ spec.expanded_option isos.now tokens.now p.now) }
    ensures room { IfOk result (λ _. room.new + spec.forms_option isos.now tokens.now p.now ≡ room.old) }
    ensures refused { IfErr result (NoRoom room.old (spec.forms_option isos.now tokens.now p.now)) }
{
    match p {
        None => Ok(None),
        Some(p) => Ok(Some(expanded(alloc, isos, tokens, p, room)?)),
    }
}

#[cycle(expand)]
fn expanded_element(
    alloc: Global,
    isos: &[Iso],
    tokens: &[PatToken],
    e: &Elem,
    room: &mut usize,
) -> Result<Elem, FormsFault>
    ensures element { IfOk result (λ f. element f ≡ spec.expanded_element isos.now tokens.now (element e.now)) }
    ensures room { IfOk result (λ _. room.new + spec.forms_element isos.now tokens.now (element e.now) ≡ room.old) }
    ensures refused { IfErr result (NoRoom room.old (spec.forms_element isos.now tokens.now (element e.now))) }
{
    match e {
        Elem::Atom(p) => Ok(Elem::Atom(expanded(alloc, isos, tokens, p, room)?)),
        Elem::Compound(h, bodies, tail) => {
            let head = expanded(alloc, isos, tokens, h, room)?;
            let parts = expanded_bodies(alloc, isos, tokens, bodies.as_slice(), room)?;
            let end = expanded_option(alloc, isos, tokens, tail, room)?;
            Ok(Elem::Compound(head, parts, end))
        }
        Elem::Block(o, b, c) => {
            let open = expanded(alloc, isos, tokens, o, room)?;
            let inner = expanded_body(alloc, isos, tokens, b.as_slice(), room)?;
            let close = expanded(alloc, isos, tokens, c, room)?;
            Ok(Elem::Block(open, inner, close))
        }
        Elem::Gap(d) => {
            let whens = expanded_bodies(alloc, isos, tokens, d.whens.as_slice(), room)?;
            Ok(Elem::Gap(Dots {
                whens,
                any: d.any,
                strict: d.strict,
            }))
        }
        Elem::Nest(plus, b, d) => {
            let inner = expanded_body(alloc, isos, tokens, b.as_slice(), room)?;
            let whens = expanded_bodies(alloc, isos, tokens, d.whens.as_slice(), room)?;
            let dots = Dots {
                whens,
                any: d.any,
                strict: d.strict,
            };
            Ok(Elem::Nest(*plus, inner, dots))
        }
        Elem::AnyOf(bodies) => {
            let parts = expanded_bodies(alloc, isos, tokens, bodies.as_slice(), room)?;
            Ok(Elem::AnyOf(parts))
        }
        Elem::AllOf(bodies) => {
            let parts = expanded_bodies(alloc, isos, tokens, bodies.as_slice(), room)?;
            Ok(Elem::AllOf(parts))
        }
    }
}

/// Returns the body with all forms, and lowers `room` by their number; fails if there are more than `room`.
#[cycle(expand)]
pub fn expanded_body(
    alloc: Global,
    isos: &[Iso],
    tokens: &[PatToken],
    b: &[Elem],
    room: &mut usize,
) -> Result<Items<Elem>, FormsFault>
    ensures body { IfOk result (λ es. body es ≡ spec.expanded_body isos.now tokens.now (body b.now)) }
    ensures room { IfOk result (λ _. room.new + spec.forms_body isos.now tokens.now (body b.now) ≡ room.old) }
    ensures refused { IfErr result (NoRoom room.old (spec.forms_body isos.now tokens.now (body b.now))) }
{
    let mut out = Items::new(alloc);
    for e in b {
        let f = expanded_element(alloc, isos, tokens, e, room)?;
        out.push(f)?;
    }
    Ok(out)
}

#[cycle(expand)]
fn expanded_bodies(
    alloc: Global,
    isos: &[Iso],
    tokens: &[PatToken],
    bs: &[Items<Elem>],
    room: &mut usize,
) -> Result<Items<Items<Elem>>, FormsFault>
    ensures bodies { IfOk result (λ cs. bodies_of cs ≡ spec.expanded_bodies isos.now tokens.now (bodies_of bs.now)) }
    ensures room { IfOk result (λ _. room.new + spec.forms_bodies isos.now tokens.now (bodies_of bs.now) ≡ room.old) }
    ensures refused { IfErr result (NoRoom room.old (spec.forms_bodies isos.now tokens.now (bodies_of bs.now))) }
{
    let mut out = Items::new(alloc);
    for b in bs {
        let inner = expanded_body(alloc, isos, tokens, b.as_slice(), room)?;
        out.push(inner)?;
    }
    Ok(out)
}
