// Which side may become which.
ghost use Rattle.std.specs.Prelude.{◌≡◌, Bool, List};
ghost use Rattle.iso_expand.specs.IsoForms.Replacing as spec;
ghost use Rattle.iso_expand.specs.IsoForms.Stepped.{IsLowest};

/// Returns the lowest side that side `i` may become, or `i` if it may become none below. Linear in the arrows before
/// it.
pub fn lowest(both: &[bool], i: usize) -> usize
    ensures { IsLowest both.now i result }
{
    let mut low = 0;
    for k in 0..i.min(both.len()) {
        if !both[k] {
            low = k + 1;
        }
    }
    low
}

/// Whether side `i`, for which `low` is the lowest side, may become side `j`.
pub fn may_become(low: usize, i: usize, j: usize) -> bool
    ensures { (both : List Bool) → IsLowest both i low → result ≡ spec.may_become both i j }
{
    low <= j && j != i
}
