// What a part of a table says about each declared variable.
ghost use Rattle.std.specs.Prelude.{◌≡◌, ◌<◌, ◌/◌, ℕ, true, false, List, map, length, None, Some, IfOk};
ghost use Rattle.smpl_terms.specs.declared.var.Var.{Var as Variable};
ghost use Rattle.smpl_patch.specs.Patterns.{sure};
ghost use Rattle.pattern_vars.specs.Reads.{is_declared};
ghost use Rattle.ctl_formula.specs.declared.node.Node.{Node as Part};
ghost use Rattle.ctl_formula.specs.Bounds.{Surely};
ghost use Rattle.ctl_formula.specs.Tables.{at, plains};
ghost use Rattle.ctl_translate.specs.CtlBound.Binding.{binds_at};
ghost use Rattle.ctl_translate.specs.CtlBound.Saying.{binds_in, said_of};
ghost use Rattle.ctl_translate.specs.CtlBound.Naming.{AreMarked, SaysOf, lists_of, group_of};
ghost use Rattle.ctl_translate.specs.CtlBound.Steps.{step_of, AreOrdered};

use crate::ctl_bound::masks::{Binds, Masks, binds_by, root_masks};
use crate::ctl_bound::naming::{Mark, grouped, marks_of, put_named};
use crate::ctl_bound::steps::{Step, steps_of};
use c_terms::NoMemory;
use ctl_formula::Parts;
use pattern_vars::{Decls, VarSet, declared_vars};
use smpl_patch::PatToken;
use smpl_terms::Var;
use std::alloc::Global;

/// What a formula says about each declared variable.
#[derive(Drop)]
pub struct Bindings {
    /// The declared variables, each with a number.
    vars: VarSet,
    /// What the formula says about 64 variables each, in the order of their numbers.
    masks: Vec<Masks>,
}

impl Bindings {
    /// Returns what the formula says about the variable, or `None` if it isn't declared. Takes one look-up and a copy
    /// of the variable, linear in the name.
    pub fn of(&self, alloc: Global, x: &Var) -> Result<Option<Binds>, NoMemory>
        ensures { IfOk result (λ said. said ≡ binds_in self.now x.now) }
    {
        let number = self.vars.number(alloc, x)?;
        Ok(said_of(self.masks.as_slice(), number))
    }
}

/// Returns what the masks say about the variable with this number.
fn said_of(masks: &[Masks], number: Option<usize>) -> Option<Binds>
    ensures { result ≡ said_of masks.now number }
{
    match number {
        Some(k) => masks.get(k / 64).map(|m| binds_by(m, k % 64)),
        None => None,
    }
}

/// Returns what a part of a table says about the 64 variables of the group with this number, given the table's steps
/// and the group's marks. Linear in the two. `named` is as long as the table; the old contents of `named` and `known`
/// don't matter.
fn group_masks(
    steps: &[Step],
    marks: &[Mark],
    root: usize,
    group: usize,
    named: &mut [u64],
    known: &mut Vec<Masks>,
) -> Result<Masks, NoMemory>
    requires ordered { AreOrdered steps.now }
    requires within { root < length steps.now }
    requires each { length named.old ≡ length steps.now }
    ensures { IfOk result (λ masks. (ns : List Part) → steps.now ≡ map step_of ns
        → SaysOf ns marks.now root group masks) }
{
    put_named(marks, group, named);
    root_masks(steps, named, root, known)
}

/// Returns what the part says about the variables of each group, given the marks of each. All passes share their
/// buffers.
fn all_masks(
    alloc: Global,
    steps: &[Step],
    groups: &[Vec<Mark>],
    root: usize,
) -> Result<Vec<Masks>, NoMemory>
    requires ordered { AreOrdered steps.now }
    requires within { root < length steps.now }
    ensures { IfOk result (λ masks. (ns : List Part) (sure : Surely) (x : Variable) (k : ℕ) → k / 64 < length groups.now
        → steps.now ≡ map step_of ns → AreMarked sure x k ns (group_of (lists_of groups.now) k)
        → said_of masks.items (Some k) ≡ Some (binds_at sure x (at (plains ns) root))) }
{
    let mut named = vec![in alloc; 0u64; steps.len()]?;
    let mut known = Vec::with_capacity(alloc, steps.len())?;
    let mut masks = Vec::with_capacity(alloc, groups.len())?;
    for group in 0..groups.len() {
        let marks = groups[group].as_slice();
        masks.push(group_masks(steps, marks, root, group, &mut named, &mut known)?)?;
    }
    Ok(masks)
}

/// Returns what the part with this number says about each declared variable, and about no other one. Each pattern is
/// read once; then each 64 variables take one pass over a copy of the table that has no patterns, and over the list of
/// which part names which of the 64.
pub fn bindings_of(
    alloc: Global,
    parts: &Parts,
    decls: &Decls,
    tokens: &[PatToken],
    root: usize,
) -> Result<Bindings, NoMemory>
    requires { root < length parts.now }
    ensures declared { IfOk result (λ found. (x : Variable) → is_declared decls.now x ≡ true
        → binds_in found x ≡ Some (binds_at (sure decls.now tokens.now) x (at (plains parts.now) root))) }
    ensures others { IfOk result (λ found. (x : Variable) → is_declared decls.now x ≡ false → binds_in found x ≡ None) }
{
    let vars = declared_vars(alloc, decls)?;
    let marks = marks_of(alloc, parts, decls, tokens, &vars)?;
    let groups = grouped(alloc, &marks, vars.len().div_ceil(64))?;
    let steps = steps_of(alloc, parts)?;
    let masks = all_masks(alloc, &steps, &groups, root)?;
    Ok(Bindings { vars, masks })
}
