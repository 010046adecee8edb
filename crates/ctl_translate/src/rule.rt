// The formula of a rule.
ghost use Rattle.std.specs.Prelude.{◌≡◌, ◌<◌, ◌&&◌, not, true, false, length, None, IfOk, IfErr};
ghost use Rattle.std.specs.List.{filter};
ghost use Rattle.smpl_patch.specs.Bodies.{body};
ghost use Rattle.smpl_patch.specs.Patterns as patterns;
ghost use Rattle.smpl_terms.specs.declared.var.Var.{Var as Variable};
ghost use Rattle.pattern_vars.specs.Reads.{has};
ghost use Rattle.ctl_formula.specs.Plain.{fits};
ghost use Rattle.ctl_formula.specs.Tables.{at, plains, Makes};
ghost use Rattle.pattern_vars.specs.VarPlaces.Placing.{any_body, is_alone};
ghost use Rattle.ctl_translate.specs.Rules as rules;
ghost use Rattle.pattern_vars.specs.VarPlaces.Places.{reading_at};
ghost use Rattle.ctl_translate.specs.Answers.{IsFormulaOf, IsFaultOf};

use crate::deep::is_far_too_long;
use crate::least::is_far_too_large;
use crate::unbound::first_unbound;
use c_terms::NoMemory;
use ctl_formula::{Formula, Parts};
use ctl_table::{Continuation, Setting, blocks, sequence};
use pattern_vars::{
    Decls, Ordered, Reader, Scope, VarSet, among, put_vars, standing_in_body, used_in_body,
};
use smpl_patch::{Elem, Mode, Rule, VarDecl, copy_decls, copy_pattern_tokens};
use smpl_terms::Var;
use sqlite_items::Items;
use std::alloc::{AllocError, Global};

/// Why a rule has no usable formula.
#[derive(Drop)]
pub enum FormulaFault {
    /// It has more than 100,000 subformulas, or one inside more than 4,000 others.
    TooLarge,
    /// It isn't too large, and this is the first variable in declared order that may stay unbound.
    Unbound(Var),
    /// Out of memory.
    NoMemory,
}

impl From<NoMemory> for FormulaFault {
    ghost use Rattle.ctl_translate.specs.declared.rule.FormulaFault.TheVariants as fault;

    ghost from_gives = { λ _ e. e ≡ fault.NoMemory };

    fn from(_: NoMemory) -> Self {
        FormulaFault::NoMemory
    }
}

impl From<AllocError> for FormulaFault {
    ghost use Rattle.ctl_translate.specs.declared.rule.FormulaFault.TheVariants as fault;

    ghost from_gives = { λ _ e. e ≡ fault.NoMemory };

    fn from(_: AllocError) -> Self {
        FormulaFault::NoMemory
    }
}

fn ranges_over_all(mode: Mode) -> bool
    ensures { result ≡ rules.ranges_over_all mode }
{
    matches!(mode, Mode::Forall)
}

fn is_local(alloc: Global, exports: &VarSet, d: &VarDecl) -> Result<bool, NoMemory>
    ensures { IfOk result (λ yes. yes ≡ (not d.now.inherited && not (has exports.now d.now.var))) }
{
    let exported = exports.has(alloc, &d.var)?;
    Ok(!d.inherited && !exported)
}

/// Returns the exported variables.
pub fn exported(alloc: Global, rule: &Rule) -> Result<VarSet, NoMemory>
    ensures { IfOk result (λ set. (x : Variable) → has set x ≡ rules.is_exported rule.now x) }
{
    let mut set = VarSet::new(alloc);
    put_vars(alloc, rule.exports.as_slice(), &mut set)?;
    Ok(set)
}

/// Returns the variables that are neither exported nor inherited.
fn locals(alloc: Global, rule: &Rule) -> Result<Items<Var>, NoMemory>
    ensures { IfOk result (λ found. found ≡ rules.locals rule.now) }
{
    let exports = exported(alloc, rule)?;
    let mut found = Items::new(alloc);
    for d in rule.vars.as_slice() {
        if is_local(alloc, &exports, d)? {
            found.push(d.var.copy(alloc)?)?;
        }
    }
    Ok(found)
}

fn is_unused(alloc: Global, used: &VarSet, x: &Var) -> Result<bool, NoMemory>
    ensures { IfOk result (λ unused. unused ≡ not (has used.now x.now)) }
{
    let there = used.has(alloc, x)?;
    Ok(!there)
}

/// Returns those of the variables that aren't in the set.
fn others(alloc: Global, used: &VarSet, vars: &[Var]) -> Result<Items<Var>, NoMemory>
    ensures { IfOk result (λ found. found ≡ filter (λ x. not (has used.now x)) vars.now) }
{
    let mut found = Items::new(alloc);
    for x in vars {
        if is_unused(alloc, used, x)? {
            found.push(x.copy(alloc)?)?;
        }
    }
    Ok(found)
}

/// Returns the rule's declarations, found by their names.
pub fn declared(alloc: Global, rule: &Rule) -> Result<Decls, NoMemory>
    ensures { IfOk result (λ known. known ≡ rule.now.vars) }
{
    let decls = copy_decls(alloc, rule.vars.as_slice())?;
    Decls::of(alloc, decls)
}

/// Returns the variables that occur in the rule's pattern, except in `when` code and plus code. Of a head and of the
/// tail of a `do` only their own tokens count. Recurses once for each level of nested statements and of branches, and
/// is linear in the rule if no hashes collide.
pub fn standing_outside_whens(alloc: Global, rule: &Rule) -> Result<VarSet, NoMemory>
    ensures value { IfOk result (λ set. (x : Variable) → has set x ≡ any_body false
        (λ p. patterns.stands rule.now.vars rule.now.tokens p x) (body rule.now.body)) }
{
    let decls = declared(alloc, rule)?;
    let decls = &decls;
    let tokens = rule.tokens.as_slice();
    let b = rule.body.as_slice();
    standing_in_body(alloc, &Reader { decls, tokens }, false, b)
}

/// The variables that are neither exported nor inherited: those that occur only in `when` code, and the others.
#[derive(Drop)]
pub struct LocalVars {
    pub alone: Ordered,
    pub placed: Items<Var>,
}

/// Sorts the variables by where they occur. The body is read once, and each variable is looked up a few times.
fn sorted_locals(
    alloc: Global,
    reader: &Reader,
    b: &[Elem],
    locals: &[Var],
) -> Result<LocalVars, NoMemory>
    ensures alone { IfOk result (λ found. found.alone ≡ filter (is_alone (reading_at reader.now) (body b.now)) locals.now) }
    ensures placed { IfOk result (λ found. found.placed
        ≡ filter (λ x. not (is_alone (reading_at reader.now) (body b.now) x)) locals.now) }
{
    let used = used_in_body(alloc, reader, b)?;
    let placed = among(alloc, &used, locals)?;
    let alone = others(alloc, &used, locals)?;
    let alone = Ordered::of(alloc, alone)?;
    Ok(LocalVars { alone, placed })
}

/// Returns the part for the rule's formula, given these variables.
fn root_of(
    alloc: Global,
    parts: &mut Parts,
    rule: &Rule,
    reader: &Reader,
    locals: &Ordered,
    found: &LocalVars,
) -> Result<usize, NoMemory>
    requires decls { reader.now.decls.now ≡ rule.now.vars }
    requires tokens { reader.now.tokens.now ≡ rule.now.tokens }
    requires locals { locals.now ≡ rules.locals rule.now }
    requires alone { found.now.alone ≡ filter (is_alone (reading_at reader.now) (body rule.now.body)) locals.now }
    requires placed { found.now.placed
        ≡ filter (λ x. not (is_alone (reading_at reader.now) (body rule.now.body) x)) locals.now }
    ensures made { IfOk result (λ i. Makes parts.old parts.new i (rules.formula_of rule.now)) }
{
    let b = rule.body.as_slice();
    let blocks = blocks(alloc, b)?;
    let placed = found.placed.as_slice();
    let forall_walks = ranges_over_all(rule.mode);
    let m = Setting {
        reader: *reader,
        forall_walks,
        locals,
        alone: &found.alone,
        blocks: &blocks,
        around: None,
    };
    let around = Scope::none(alloc)?;
    sequence(alloc, parts, &m, b, &Continuation::Nothing, placed, &around)
}

/// Returns the part for the rule's formula, given what patterns are read with.
fn root_by(
    alloc: Global,
    parts: &mut Parts,
    rule: &Rule,
    reader: &Reader,
) -> Result<usize, NoMemory>
    requires decls { reader.now.decls.now ≡ rule.now.vars }
    requires tokens { reader.now.tokens.now ≡ rule.now.tokens }
    ensures made { IfOk result (λ i. Makes parts.old parts.new i (rules.formula_of rule.now)) }
{
    let locals = locals(alloc, rule)?;
    let locals = Ordered::of(alloc, locals)?;
    let b = rule.body.as_slice();
    let found = sorted_locals(alloc, reader, b, locals.as_slice())?;
    root_of(alloc, parts, rule, reader, &locals, &found)
}

/// Returns the part for the rule's formula.
fn root(alloc: Global, parts: &mut Parts, rule: &Rule) -> Result<usize, NoMemory>
    ensures made { IfOk result (λ i. Makes parts.old parts.new i (rules.formula_of rule.now)) }
{
    let decls = declared(alloc, rule)?;
    let decls = &decls;
    let tokens = rule.tokens.as_slice();
    root_by(alloc, parts, rule, &Reader { decls, tokens })
}

/// Returns the formula that a part stands for, with the rule's declarations and tokens.
fn formula(alloc: Global, parts: Parts, root: usize, rule: &Rule) -> Result<Formula, NoMemory>
    requires within { root < length parts }
    requires root { at (plains parts) root ≡ rules.formula_of rule.now }
    requires fits { fits (rules.formula_of rule.now) ≡ true }
    requires bound { rules.first_unbound rule.now ≡ None }
    ensures { IfOk result (λ formula. IsFormulaOf rule.now formula) }
{
    let decls = copy_decls(alloc, rule.vars.as_slice())?;
    let tokens = copy_pattern_tokens(alloc, rule.tokens.as_slice())?;
    Ok(Formula::of(parts, root, decls, tokens))
}

/// Returns the formula of a rule, with the rule's declarations and tokens.
///
/// Fails with [`FormulaFault::TooLarge`] if the formula is over a limit, whether or not it has variables that may stay unbound;
/// with [`FormulaFault::Unbound`] if it is within the limits and has such a variable; and with [`FormulaFault::NoMemory`] when
/// out of memory. Recurses once for each level of nested statements, branches and `when` code. Makes a part that occurs several
/// times once, and processes each element once; a token is read a few times for each statement, branch or piece of `when` code
/// around it. The table is after Brunel, Doligez, Hansen, Lawall and Muller, POPL 2009; what they leave open is this project's
/// own.
pub fn formula_of(alloc: Global, rule: &Rule) -> Result<Formula, FormulaFault>
    ensures formula { IfOk result (λ formula. IsFormulaOf rule.now formula) }
    ensures fault { IfErr result (λ fault. IsFaultOf rule.now fault) }
{
    if is_far_too_large(rule) {
        return Err(FormulaFault::TooLarge);
    }
    if is_far_too_long(rule) {
        return Err(FormulaFault::TooLarge);
    }
    let mut parts = Parts::new(alloc);
    let root = root(alloc, &mut parts, rule)?;
    if !parts.fits(root) {
        return Err(FormulaFault::TooLarge);
    }
    let unbound = first_unbound(alloc, &parts, root, rule)?;
    match unbound {
        Some(x) => Err(FormulaFault::Unbound(x)),
        None => {
            let formula = formula(alloc, parts, root, rule)?;
            Ok(formula)
        }
    }
}
