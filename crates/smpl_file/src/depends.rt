// Copies of what rules depend on.
ghost use Rattle.std.specs.Prelude.{◌≡◌, IfOk};

use c_terms::NoMemory;
use smpl_patch::Dep;
use sqlite_items::Boxed;
use std::alloc::Global;

/// Returns a copy of the condition. Linear. Recurses once per level.
pub fn copy_dep(alloc: Global, d: &Dep) -> Result<Dep, NoMemory>
    ensures { IfOk result (λ e. e ≡ d.now) }
{
    match d {
        Dep::Always => Ok(Dep::Always),
        Dep::Had(rule) => Ok(Dep::Had(*rule)),
        Dep::Ever(rule) => Ok(Dep::Ever(*rule)),
        Dep::Defined(name) => Ok(Dep::Defined(name.copy(alloc)?)),
        Dep::Not(a) => Ok(Dep::Not(Boxed::new(alloc, copy_dep(alloc, a.get())?)?)),
        Dep::Both(a, b) => {
            let one = Boxed::new(alloc, copy_dep(alloc, a.get())?)?;
            let other = Boxed::new(alloc, copy_dep(alloc, b.get())?)?;
            Ok(Dep::Both(one, other))
        }
        Dep::Either(a, b) => {
            let one = Boxed::new(alloc, copy_dep(alloc, a.get())?)?;
            let other = Boxed::new(alloc, copy_dep(alloc, b.get())?)?;
            Ok(Dep::Either(one, other))
        }
    }
}
