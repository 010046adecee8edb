// The elements of a tree.
ghost use Rattle.std.specs.Prelude.{◌≡◌, ◌+◌, ◌∷◌, [], Some, None as NoTail, IfOk};
ghost use Rattle.c_terms.specs.Trees.{join};
ghost use Rattle.smpl_patch.specs.declared.elem.Elem.TheVariants as elem;
ghost use Rattle.smpl_patch.specs.declared.pattern.Spot.TheVariants as spots;
ghost use Rattle.smpl_body.specs.SmplElem.Forms as forms_of;
ghost use Rattle.smpl_body.specs.SmplElem.Elements as spec;

use crate::smpl_elem::form::{
    Form, after, before, first_kid, form_at, id_at, is_more, is_part, kids, label_at, last_id,
    last_kid,
};
use crate::smpl_elem::masked::masked;
use c_terms::{NoMemory, Tree};
use smpl_patch::{Dots, Elem, Pattern, Spot};
use sqlite_items::Items;
use std::alloc::Global;

/// What the clauses of tokens say.
pub trait DotsSource {
    ghost use Rattle.std.specs.Prelude.{◌≡◌, ℕ, IfOk};
    ghost use Rattle.smpl_patch.specs.declared.elem.Dots.{Dots as WhenFlags};

    ghost dots_at: { Self → ℕ → WhenFlags };

    /// Returns what the clauses of the token with this number say.
    fn dots(&self, alloc: Global, id: u64) -> Result<Dots, NoMemory>
        ensures { IfOk result (λ d. d ≡ dots_at self.now id) };
}

/// Elements, and the number of the next pattern.
#[derive(Drop)]
pub struct Numbered {
    pub elems: Items<Elem>,
    pub next: u32,
}

fn pattern(alloc: Global, atom: u32, spot: Spot, tree: Tree) -> Result<Pattern, NoMemory>
    ensures { IfOk result (λ p. p ≡ spec.pattern atom spot tree) }
{
    let mut forms = Items::new(alloc);
    forms.push(tree)?;
    Ok(Pattern { atom, spot, forms })
}

/// Concatenates the sequences. Linear.
fn joined(alloc: Global, parts: Vec<Items<Elem>>) -> Result<Items<Elem>, NoMemory>
    ensures { IfOk result (λ all. all ≡ join parts.items) }
{
    let mut all = Items::new(alloc);
    for part in parts {
        all.append(part)?;
    }
    Ok(all)
}

fn one(alloc: Global, elem: Elem) -> Result<Items<Elem>, NoMemory>
    ensures { IfOk result (λ elems. elems ≡ elem ∷ []) }
{
    let mut elems = Items::new(alloc);
    elems.push(elem)?;
    Ok(elems)
}

fn atom(alloc: Global, atom: u32, spot: Spot, tree: &Tree) -> Result<Items<Elem>, NoMemory>
    ensures { IfOk result (λ elems. elems ≡ elem.Atom (spec.pattern atom spot tree.now) ∷ []) }
{
    let pattern = pattern(alloc, atom, spot, tree.copy(alloc)?)?;
    one(alloc, Elem::Atom(pattern))
}

fn block(
    alloc: Global,
    tree: &Tree,
    first: u32,
    parts: Vec<Items<Elem>>,
    next: u32,
) -> Result<Items<Elem>, NoMemory>
    ensures { IfOk result (λ elems. elems ≡ elem.Block
        (spec.pattern first spots.Whole (forms_of.first_kid (forms_of.kids tree.now))) (join parts.items)
        (spec.pattern next spots.Whole (forms_of.last_kid (forms_of.kids tree.now))) ∷ []) }
{
    let children = kids(tree);
    let start = pattern(alloc, first, Spot::Whole, first_kid(alloc, children)?)?;
    let end = pattern(alloc, next, Spot::Whole, last_kid(alloc, children)?)?;
    one(alloc, Elem::Block(start, joined(alloc, parts)?, end))
}

fn gap<C: DotsSource>(alloc: Global, clauses: &C, tree: &Tree) -> Result<Items<Elem>, NoMemory>
    ensures { IfOk result (λ elems. elems ≡ elem.Gap (C.dots_at clauses.now (forms_of.id_at tree.now)) ∷ []) }
{
    let dots = clauses.dots(alloc, id_at(tree))?;
    one(alloc, Elem::Gap(dots))
}

fn nest<C: DotsSource>(
    alloc: Global,
    clauses: &C,
    tree: &Tree,
    parts: Vec<Items<Elem>>,
) -> Result<Items<Elem>, NoMemory>
    ensures { IfOk result (λ elems. elems ≡ elem.Nest
        (forms_of.is_more (forms_of.first_kid (forms_of.kids tree.now))) (join parts.items)
        (C.dots_at clauses.now (forms_of.id_at (forms_of.last_kid (forms_of.kids tree.now)))) ∷ []) }
{
    let children = kids(tree);
    let dots = clauses.dots(alloc, last_id(children))?;
    one(
        alloc,
        Elem::Nest(is_more(children), joined(alloc, parts)?, dots),
    )
}

fn head(
    alloc: Global,
    tree: &Tree,
    first: u32,
    parts: Vec<Items<Elem>>,
) -> Result<Items<Elem>, NoMemory>
    ensures { IfOk result (λ elems. elems ≡ elem.Compound
        (spec.pattern first spots.Whole (forms_of.masked spots.Whole tree.now)) parts.items NoTail ∷ []) }
{
    let own = pattern(alloc, first, Spot::Whole, masked(alloc, Spot::Whole, tree)?)?;
    one(alloc, Elem::Compound(own, Items::from_vec(parts), None))
}

fn do_while(
    alloc: Global,
    tree: &Tree,
    first: u32,
    parts: Vec<Items<Elem>>,
    next: u32,
) -> Result<Items<Elem>, NoMemory>
    ensures { IfOk result (λ elems. elems ≡ elem.Compound
        (spec.pattern first spots.Whole (forms_of.masked spots.Whole tree.now)) parts.items
        (Some (spec.pattern next spots.Tail (forms_of.masked spots.Tail tree.now))) ∷ []) }
{
    let own = pattern(alloc, first, Spot::Whole, masked(alloc, Spot::Whole, tree)?)?;
    let tail = pattern(alloc, next, Spot::Tail, masked(alloc, Spot::Tail, tree)?)?;
    one(
        alloc,
        Elem::Compound(own, Items::from_vec(parts), Some(tail)),
    )
}

/// Returns the elements of a tree of this form with these parts.
fn made<C: DotsSource>(
    alloc: Global,
    form: Form,
    clauses: &C,
    tree: &Tree,
    first: u32,
    parts: Vec<Items<Elem>>,
    next: u32,
) -> Result<Items<Elem>, NoMemory>
    ensures { IfOk result (λ elems. elems ≡
        spec.made form (C.dots_at clauses.now) tree.now first parts.items next) }
{
    match form {
        Form::Gap => gap(alloc, clauses, tree),
        Form::Expression => atom(alloc, first, Spot::Inside, tree),
        Form::Plain => atom(alloc, first, Spot::Whole, tree),
        Form::List => joined(alloc, parts),
        Form::Block => block(alloc, tree, first, parts, next),
        Form::Nest => nest(alloc, clauses, tree, parts),
        Form::AnyOf => one(alloc, Elem::AnyOf(Items::from_vec(parts))),
        Form::AllOf => one(alloc, Elem::AllOf(Items::from_vec(parts))),
        Form::Head => head(alloc, tree, first, parts),
        Form::Do => do_while(alloc, tree, first, parts, next),
    }
}

/// Returns the elements of a tree of this form with these parts, and the number after those of its patterns.
fn finished<C: DotsSource>(
    alloc: Global,
    form: Form,
    clauses: &C,
    tree: &Tree,
    first: u32,
    parts: Vec<Items<Elem>>,
    next: u32,
) -> Result<Numbered, NoMemory>
    ensures elems { IfOk result (λ r. r.elems ≡
        spec.made form (C.dots_at clauses.now) tree.now first parts.items next) }
    ensures next { IfOk result (λ r. r.next ≡ next + forms_of.after form) }
{
    let elems = made(alloc, form, clauses, tree, first, parts, next)?;
    let next = next.checked_add(after(form)).ok_or(NoMemory)?;
    Ok(Numbered { elems, next })
}

/// Returns the elements of a tree whose first pattern has the given number. Returns `NoMemory` if a number would be 2^32 or
/// more. Linear. Recurses once per level.
pub fn elements<C: DotsSource>(
    alloc: Global,
    clauses: &C,
    tree: &Tree,
    first: u32,
) -> Result<Numbered, NoMemory>
    ensures elems { IfOk result (λ r. r.elems ≡ spec.elements (C.dots_at clauses.now) first tree.now) }
    ensures next { IfOk result (λ r. r.next ≡ first + spec.atoms tree.now) }
{
    let form = form_at(tree);
    let label = label_at(tree);
    let children = kids(tree);
    let mut next: u32 = first.checked_add(before(form)).ok_or(NoMemory)?;
    let mut parts = Vec::new(alloc);
    for (i, child) in children.iter().enumerate() {
        if !is_part(form, label, children.len(), i, child) {
            continue;
        }
        let part = elements(alloc, clauses, child, next)?;
        let Numbered {
            elems,
            next: behind,
        } = part;
        parts.push(elems)?;
        next = behind;
    }
    finished(alloc, form, clauses, tree, first, parts, next)
}
