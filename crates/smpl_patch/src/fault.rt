// Why a patch is not read.
ghost use Rattle.std.specs.Prelude.{◌≡◌, List, Some};
ghost use Rattle.smpl_patch.specs.declared.fault.PatchFault.{PatchFault as Fault};
ghost use Rattle.smpl_patch.specs.Faults.{number_of, place_of, is_before, earlier, first_of, IsFirstOf};

use c_terms::NoMemory;
use smpl_terms::Var;
use std::alloc::{AllocError, AllocFailed};

/// The reason why a patch is not read. A number is the offset of a byte in the patch, unless the variant says otherwise.
#[derive(Drop)]
pub enum PatchFault {
    /// More than 1,048,576 bytes.
    PatchTooLong,
    /// Text that is not a token of semantic patches.
    BadToken(u32),
    /// A header, a `virtual` line or a rule that can't continue here.
    BadHeader(u32),
    /// A malformed declaration, or a keyword in place of a name.
    BadMetavariable(u32),
    /// A name that is used twice.
    TwiceNamed(u32),
    /// A name that is neither an earlier rule, nor a variable of one, nor virtual.
    UnknownRule(u32),
    /// An inherited variable that is declared with another kind.
    KindDiffers(u32),
    /// A body that the grammar does not allow.
    BadPattern(u32),
    /// A `*` line and a `-` or `+` line in the rule of this number.
    StarWithEdit(u32),
    /// Plus code without an anchor, or `+` and `++` lines in one block of plus code.
    PlusWithoutAnchor(u32),
    /// Dots or a nest at the start or the end, where none may be.
    DotsAtEdge(u32),
    /// Dots on a `-` line.
    MinusDots(u32),
    /// A variable that may stay unbound.
    MayStayUnbound(Var),
    /// A variable of plus code that the pattern does not bind.
    UnboundInPlus(Var),
    /// A rule of a script language.
    ScriptRule(u32),
    /// The 201st open bracket.
    TooDeep(u32),
    /// The formula of the rule of this number is too large.
    TooLarge(u32),
    /// Out of memory.
    NoMemory,
}

/// Returns the fault's number as users see it, from 1.
pub fn fault_number(fault: &PatchFault) -> u8
    ensures value { result ≡ number_of fault.now }
{
    match fault {
        PatchFault::PatchTooLong => 1,
        PatchFault::BadToken(_) => 2,
        PatchFault::BadHeader(_) => 3,
        PatchFault::BadMetavariable(_) => 4,
        PatchFault::TwiceNamed(_) => 5,
        PatchFault::UnknownRule(_) => 6,
        PatchFault::KindDiffers(_) => 7,
        PatchFault::BadPattern(_) => 8,
        PatchFault::StarWithEdit(_) => 9,
        PatchFault::PlusWithoutAnchor(_) => 10,
        PatchFault::DotsAtEdge(_) => 11,
        PatchFault::MinusDots(_) => 12,
        PatchFault::MayStayUnbound(_) => 13,
        PatchFault::UnboundInPlus(_) => 14,
        PatchFault::ScriptRule(_) => 15,
        PatchFault::TooDeep(_) => 16,
        PatchFault::TooLarge(_) => 17,
        PatchFault::NoMemory => 18,
    }
}

/// Returns the offset of the byte where the fault is, or 0 if it has no place.
pub fn fault_place(fault: &PatchFault) -> u32
    ensures value { result ≡ place_of fault.now }
{
    match fault {
        PatchFault::BadToken(at) => *at,
        PatchFault::BadHeader(at) => *at,
        PatchFault::BadMetavariable(at) => *at,
        PatchFault::TwiceNamed(at) => *at,
        PatchFault::UnknownRule(at) => *at,
        PatchFault::KindDiffers(at) => *at,
        PatchFault::BadPattern(at) => *at,
        PatchFault::PlusWithoutAnchor(at) => *at,
        PatchFault::DotsAtEdge(at) => *at,
        PatchFault::MinusDots(at) => *at,
        PatchFault::ScriptRule(at) => *at,
        PatchFault::TooDeep(at) => *at,
        _ => 0,
    }
}

/// Whether `a` is at an earlier place than `b`, or at the same place with a lesser number.
fn is_before(a: &PatchFault, b: &PatchFault) -> bool
    ensures { result ≡ is_before a.now b.now }
{
    let (p, q) = (fault_place(a), fault_place(b));
    p < q || p == q && fault_number(a) < fault_number(b)
}

/// Returns the earlier of a new fault and the first fault so far, by place, then by number.
pub fn earlier(first: Option<PatchFault>, fault: PatchFault) -> PatchFault
    ensures value { result ≡ earlier first fault }
{
    match first {
        None => fault,
        Some(known) => {
            if is_before(&fault, &known) {
                fault
            } else {
                known
            }
        }
    }
}

/// The law that the first of several faults is one of them, and that none of them is before it. Does nothing.
pub fn first_is_least()
    ensures { (faults : List Fault) (f : Fault) → first_of faults ≡ Some f → IsFirstOf faults f }
{}

impl From<AllocError> for PatchFault {
    ghost use Rattle.smpl_patch.specs.declared.fault.PatchFault.TheVariants.{NoMemory};

    ghost from_gives = { λ _ e. e ≡ NoMemory };

    fn from(_: AllocError) -> PatchFault {
        PatchFault::NoMemory
    }
}

impl<T: Drop> From<AllocFailed<T>> for PatchFault {
    ghost use Rattle.smpl_patch.specs.declared.fault.PatchFault.TheVariants.{NoMemory};

    ghost from_gives = { λ _ e. e ≡ NoMemory };

    fn from(_: AllocFailed<T>) -> PatchFault {
        PatchFault::NoMemory
    }
}

impl From<NoMemory> for PatchFault {
    ghost use Rattle.smpl_patch.specs.declared.fault.PatchFault.TheVariants as fault;

    ghost from_gives = { λ _ e. e ≡ fault.NoMemory };

    fn from(_: NoMemory) -> PatchFault {
        PatchFault::NoMemory
    }
}
