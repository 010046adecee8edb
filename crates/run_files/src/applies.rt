// Applies a patch to the bytes of a text.
ghost use Rattle.std.specs.Prelude.{◌≤◌, ◌↔◌, ◌≡◌, List, ℕ, Option, IsTrue, length, IfOk, IfErr};
ghost use Rattle.c_lexer.specs.Pieces.{most_bytes};
ghost use Rattle.outer_io.specs.Files.{Files};
ghost use Rattle.run_acts.specs.Acts.{observed};
ghost use Rattle.run_acts.specs.Breaks.{counts};
ghost use Rattle.run_acts.specs.Statuses.{status_of};
ghost use Rattle.rule_chain.specs.declared.rule_run.fault.FileFault.TheVariants as cause;
ghost use Rattle.run_files.specs.Cuts.{TreatsPart};
ghost use Rattle.run_files.specs.Applies.{AppliesTo, Refuses};

use crate::effects::refuse;
use c_terms::NoMemory;
use outer_io::Sink;
use par_match::{Gate, Workers};
use rule_chain::{Applied, FileFault, PatchRules, apply};
use run_acts::Stopped;
use std::alloc::Global;
use std::thread::Threads;

fn copied(alloc: Global, bytes: &[u8]) -> Result<Vec<u8>, NoMemory>
    ensures { IfOk result (λ copy. copy.items ≡ bytes.now) }
{
    Ok(Vec::from_slice(alloc, bytes)?)
}

/// Whether memory ran out, so that nothing is known to be wrong with the file.
fn is_no_memory(fault: &FileFault) -> bool
    ensures { IsTrue result ↔ (fault.now ≡ cause.NoMemory) }
{
    matches!(fault, FileFault::NoMemory)
}

/// Applies the patch to the bytes and returns the result. Returns `None` if they are refused, after reporting the line of the
/// refusal, which has no place under `--quiet`. Works on a copy of the bytes.
pub fn apply_or_refuse<R: Threads + Sync, E: Sink, G: Gate>(
    workers: &Workers<'_, R, G>,
    rules: &PatchRules<'_>,
    quiet: bool,
    name: &str,
    bytes: &[u8],
    err: &mut E,
) -> Result<Option<Applied>, Stopped>
    requires short { length bytes.now ≤ most_bytes }
    ensures done { IfOk result (λ applied. (files : Option Files) (stores : ℕ) (out : Option (List ℕ)) →
        AppliesTo rules.now.tidy rules.now.patch.now rules.now.defined.now quiet rules.now.unread name.now bytes.now applied
        (observed files stores out (E.written err.old)) (observed files stores out (E.written err.new))) }
    ensures later { E.faults err.old ≤ E.faults err.new }
    ensures stopped { IfErr result (λ stopped. (files : Option Files) (out : Option (List ℕ)) (stores s o s' o' : ℕ) →
        TreatsPart (Refuses rules.now.tidy rules.now.patch.now rules.now.defined.now quiet rules.now.unread name.now bytes.now)
        (counts s o (E.faults err.old)) (counts s' o' (E.faults err.new))
        (observed files stores out (E.written err.old)) (observed files stores out (E.written err.new)) (status_of stopped)) }
{
    let copy = copied(workers.alloc, bytes)?;
    match apply(workers, rules, copy) {
        Ok(applied) => Ok(Some(applied)),
        Err(fault) => {
            if is_no_memory(&fault) {
                return Err(Stopped::NoMemory);
            }
            refuse(workers.alloc, err, quiet, name, bytes, &fault)?;
            Ok(None)
        }
    }
}
