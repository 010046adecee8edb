// Copies of the parts of a rule.
ghost use Rattle.std.specs.Prelude.{◌≡◌, IfOk};

use c_terms::NoMemory;
use smpl_patch::Dep;
use sqlite_items::Boxed;
use std::alloc::Global;

/// Returns an equal dependency. Recurses once for each level.
pub fn copy_dep(alloc: Global, dep: &Dep) -> Result<Dep, NoMemory>
    ensures { IfOk result (λ copy. copy ≡ dep.now) }
{
    match dep {
        Dep::Always => Ok(Dep::Always),
        Dep::Had(rule) => Ok(Dep::Had(*rule)),
        Dep::Ever(rule) => Ok(Dep::Ever(*rule)),
        Dep::Defined(name) => Ok(Dep::Defined(name.copy(alloc)?)),
        Dep::Not(d) => {
            let copy = copy_dep(alloc, d.get())?;
            Ok(Dep::Not(Boxed::new(alloc, copy)?))
        }
        Dep::Both(d, e) => {
            let left = copy_dep(alloc, d.get())?;
            let right = copy_dep(alloc, e.get())?;
            Ok(Dep::Both(Boxed::new(alloc, left)?, Boxed::new(alloc, right)?))
        }
        Dep::Either(d, e) => {
            let left = copy_dep(alloc, d.get())?;
            let right = copy_dep(alloc, e.get())?;
            Ok(Dep::Either(Boxed::new(alloc, left)?, Boxed::new(alloc, right)?))
        }
    }
}
