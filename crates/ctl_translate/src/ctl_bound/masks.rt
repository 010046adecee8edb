// What the parts of a table say about 64 variables at once.
ghost use Rattle.std.specs.Prelude.{◌≡◌, ◌<◌, ℕ, true, false, not, ◌&&◌, ◌||◌, List, map, length, IfOk};
ghost use Rattle.smpl_terms.specs.declared.var.Var.{Var as Variable};
ghost use Rattle.ctl_formula.specs.declared.node.Node.{Node as Part};
ghost use Rattle.ctl_formula.specs.Bounds.{Surely};
ghost use Rattle.ctl_formula.specs.Tables.{at, plains};
ghost use Rattle.ctl_translate.specs.CtlBound.Binding.{binds_at};
ghost use Rattle.ctl_translate.specs.CtlBound.Bits.{is_bit, bit_binds};
ghost use Rattle.ctl_translate.specs.CtlBound.Naming.{AreNamed};
ghost use Rattle.ctl_translate.specs.CtlBound.Steps.{step_of, is_below, AreOrdered, says};

use crate::ctl_bound::steps::Step;
use c_terms::NoMemory;

/// What a formula says about a variable.
#[derive(Clone, Copy)]
pub struct Binds {
    /// Whether it has a value of the graph wherever the formula holds.
    pub holding: bool,
    /// Whether it has one wherever the formula doesn't hold.
    pub failing: bool,
    /// Whether each of its quantifiers in the formula is over a formula that binds it.
    pub guarded: bool,
}

/// What a formula says about 64 variables, one bit each.
#[derive(Clone, Copy)]
pub struct Masks {
    /// The variables that have a value of the graph wherever the formula holds.
    pub holding: u64,
    /// The variables that have one wherever the formula doesn't hold.
    pub failing: u64,
    /// The variables whose every quantifier in the formula is over a formula that binds them.
    pub guarded: u64,
}

/// Returns what the masks say about the variable of this bit.
pub fn binds_by(masks: &Masks, k: usize) -> Binds
    requires { k < 64 }
    ensures { result ≡ bit_binds masks.now k }
{
    Binds {
        holding: has_bit(masks.holding, k),
        failing: has_bit(masks.failing, k),
        guarded: has_bit(masks.guarded, k),
    }
}

/// Whether this bit of the mask is set.
fn has_bit(mask: u64, k: usize) -> bool
    requires { k < 64 }
    ensures { result ≡ is_bit mask k }
{
    (mask >> k) & 1 == 1
}

/// Returns what `true` says: it never fails.
fn always() -> Masks
    ensures { (k : ℕ) → k < 64 → bit_binds result k ≡ record { holding = false; failing = true; guarded = true } }
{
    Masks {
        holding: 0,
        failing: u64::MAX,
        guarded: u64::MAX,
    }
}

/// Returns what an atom says: the variables of this mask surely have values where it holds, and nothing is known where it
/// fails.
fn atom(own: u64) -> Masks
    ensures { (k : ℕ) → k < 64 → bit_binds result k ≡ record { holding = is_bit own k; failing = false; guarded = true } }
{
    Masks {
        holding: own,
        failing: 0,
        guarded: u64::MAX,
    }
}

/// Returns what a negation says.
fn turned(f: Masks) -> Masks
    ensures { (k : ℕ) → bit_binds result k ≡ record {
      holding = is_bit f.failing k;
      failing = is_bit f.holding k;
      guarded = is_bit f.guarded k;
    } }
{
    Masks {
        holding: f.failing,
        failing: f.holding,
        ..f
    }
}

/// Returns what a conjunction says.
fn both(f: Masks, g: Masks) -> Masks
    ensures { (k : ℕ) → bit_binds result k ≡ record {
      holding = is_bit f.holding k || is_bit g.holding k;
      failing = is_bit f.failing k && is_bit g.failing k;
      guarded = is_bit f.guarded k && is_bit g.guarded k;
    } }
{
    Masks {
        holding: f.holding | g.holding,
        failing: f.failing & g.failing,
        guarded: f.guarded & g.guarded,
    }
}

/// Returns what a disjunction says.
fn either(f: Masks, g: Masks) -> Masks
    ensures { (k : ℕ) → bit_binds result k ≡ record {
      holding = is_bit f.holding k && is_bit g.holding k;
      failing = is_bit f.failing k || is_bit g.failing k;
      guarded = is_bit f.guarded k && is_bit g.guarded k;
    } }
{
    Masks {
        holding: f.holding & g.holding,
        failing: f.failing | g.failing,
        guarded: f.guarded & g.guarded,
    }
}

/// Returns what an until says: some or every walk reaches the second formula, through nodes with the first.
fn until(f: Masks, g: Masks) -> Masks
    ensures { (k : ℕ) → bit_binds result k ≡ record {
      holding = is_bit g.holding k;
      failing = is_bit g.failing k;
      guarded = is_bit f.guarded k && is_bit g.guarded k;
    } }
{
    Masks {
        guarded: f.guarded & g.guarded,
        ..g
    }
}

/// Returns what is said if the formula holds at a node that the current node may lack.
fn moved(f: Masks) -> Masks
    ensures { (k : ℕ) → bit_binds result k ≡ record {
      holding = is_bit f.holding k;
      failing = false;
      guarded = is_bit f.guarded k;
    } }
{
    Masks { failing: 0, ..f }
}

/// Returns what is said under a quantifier of the variables of this mask.
fn exists(f: Masks, own: u64) -> Masks
    ensures { (k : ℕ) → k < 64 → bit_binds result k ≡ record {
      holding = is_bit f.holding k && not (is_bit own k);
      failing = is_bit f.failing k && not (is_bit own k);
      guarded = (not (is_bit own k) || is_bit f.holding k) && is_bit f.guarded k;
    } }
{
    Masks {
        holding: f.holding & !own,
        failing: f.failing & !own,
        guarded: (!own | f.holding) & f.guarded,
    }
}

/// Returns what a step says, given what its parts say and the mask of the variables that its node names.
fn masks_of(step: Step, own: u64, known: &[Masks]) -> Masks
    requires { is_below (length known.now) step ≡ true }
    ensures { (k : ℕ) → k < 64
        → bit_binds result k ≡ says (map (λ m. bit_binds m k) known.now) (is_bit own k) step }
{
    match step {
        Step::True => always(),
        Step::Atom => atom(own),
        Step::Not(f) => turned(known[f]),
        Step::And(f, g) => both(known[f], known[g]),
        Step::Or(f, g) => either(known[f], known[g]),
        Step::Next(f) => known[f],
        Step::Until(f, g) => until(known[f], known[g]),
        Step::Moved(f) => moved(known[f]),
        Step::Exists(f) => exists(known[f], own),
    }
}

/// Returns what the part with this number says, given the steps of a table and the masks of the variables that each
/// part names. Takes one pass over the two. What earlier parts say is stored in `known`, in place of its old contents;
/// memory is allocated only if its capacity doesn't suffice.
pub fn root_masks(
    steps: &[Step],
    named: &[u64],
    root: usize,
    known: &mut Vec<Masks>,
) -> Result<Masks, NoMemory>
    requires ordered { AreOrdered steps.now }
    requires within { root < length steps.now }
    requires each { length named.now ≡ length steps.now }
    ensures { IfOk result (λ masks. (ns : List Part) (sure : Surely) (x : Variable) (k : ℕ) → k < 64
        → steps.now ≡ map step_of ns → AreNamed sure x k ns named.now
        → bit_binds masks k ≡ binds_at sure x (at (plains ns) root)) }
{
    known.clear();
    for i in 0..steps.len() {
        known.push(masks_of(steps[i], named[i], known.as_slice()))?;
    }
    Ok(known[root])
}
