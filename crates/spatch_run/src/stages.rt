// The stages of a run before its files: the words, the patch, the isomorphisms. One function per stage.
ghost use Rattle.std.specs.Prelude.{◌≡◌, ◌↔◌, [], List, ℕ, Option, None, true, map, IfOk, IsTrue};
ghost use Rattle.std.specs.List.{list_all};
ghost use Rattle.std.specs.Str.{is_utf8};
ghost use Rattle.outer_io.specs.Files.{Files};
ghost use Rattle.run_acts.specs.Acts.{observed};
ghost use Rattle.run_acts.specs.Breaks.{counts};
ghost use Rattle.run_acts.specs.Places.{SamePlaces};
ghost use Rattle.run_acts.specs.Statuses.{number_of};
ghost use Rattle.ctl_translate.specs.declared.rule.FormulaFault.{FormulaFault as Fault};
ghost use Rattle.ctl_translate.specs.declared.rule.FormulaFault.TheVariants as formula_fault;
ghost use Rattle.smpl_patch.specs.declared.fault.PatchFault.TheVariants as patch_fault;
ghost use Rattle.smpl_file.specs.Patches.{IsPatchOf};
ghost use Rattle.iso_file.specs.declared.fault.IsoFault.TheVariants as iso_fault;
ghost use Rattle.rule_envs.specs.RuleFormulas.Prepared.{ArePrepared, IsPrepareFault};
ghost use Rattle.run_words.specs.Orders.{order_of};
ghost use Rattle.run_words.specs.Shown.{shown_isos, shown_target, few_functions};
ghost use Rattle.run_files.specs.RunStages.Stages.{Doing, ReadPatch, ReadIsos, TargetLeads, ReadLeads, IsosLead};
ghost use Rattle.run_files.specs.RunStages.Ends.{Ends, Follows, LeadsBy};
ghost use Rattle.spatch_run.specs.Answer.{answer};
ghost use Rattle.spatch_run.specs.Usable.{IsUsable};

use crate::files::edit_files;
use crate::host::Host;
use crate::laws::patches_may_be_used;
use crate::notes::{Noted, with_notes};
use crate::refusals::{refuse_absent, refuse_forms, refuse_isos, refuse_patch, refuse_words};
use crate::texts::{print_text, say, sum_text};
use c_terms::{NoMemory, Text};
use ctl_translate::FormulaFault;
use iso_expand::{ExpandFault, expand};
use iso_file::{IsoFault, read_isos};
use outer_io::{Shelf, Sink};
use par_match::{Gate, Workers};
use rule_chain::{PatchRules, words_of_rules};
use rule_envs::{Prepared, prepare};
use run_acts::{Loaded, Outside, Status, Stopped, load};
use run_files::{NoteLines, iso_byte, placed, told_place};
use run_words::{Order, PatchOrder, Target, order_of, text_fault, utf8_words, word_fault};
use smpl_file::read_patch;
use smpl_patch::{Iso, Patch, PatchFault};
use smpl_places::fault_at;
use std::alloc::Global;
use std::thread::Threads;

/// The maximum number of bytes of a patch, and of a file of isomorphisms.
const PATCH_LIMIT: u64 = 1_048_576;

/// Returns the status of a run that ended or stopped.
pub fn status_of(end: Result<Status, Stopped>) -> Status
    ensures { number_of result ≡ answer end }
{
    match end {
        Ok(status) => status,
        Err(stopped) => stopped.status(),
    }
}

/// Reads the words and does what they ask for.
pub fn follow_words<R: Threads + Sync, S: Shelf, O: Sink, E: Sink, G: Gate>(
    host: &Host<'_, R, G>,
    words: &[Text],
    outside: &mut Outside<'_, '_, '_, S, O, E>,
) -> Result<Status, Stopped>
    ensures same { SamePlaces outside.old outside.new }
    ensures ends { Follows words.now
        (counts (S.faults outside.old.shelf.now) (O.faults outside.old.out.now) (E.faults outside.old.err.now))
        (counts (S.faults outside.new.shelf.now) (O.faults outside.new.out.now) (E.faults outside.new.err.now))
        (observed (S.holds outside.old.shelf.now) (S.stores outside.old.shelf.now) (O.written outside.old.out.now) (E.written outside.old.err.now))
        (observed (S.holds outside.new.shelf.now) (S.stores outside.new.shelf.now) (O.written outside.new.out.now) (E.written outside.new.err.now))
        (answer result) }
{
    match utf8_words(host.alloc, words) {
        Err(NoMemory) => Err(Stopped::NoMemory),
        Ok(None) => {
            let fault = text_fault(words);
            refuse_words(host.alloc, outside.err, Some(fault))
        }
        Ok(Some(texts)) => follow_texts(host, &texts, outside),
    }
}

/// Reads the words, which are text, and does what they ask for.
fn follow_texts<R: Threads + Sync, S: Shelf, O: Sink, E: Sink, G: Gate>(
    host: &Host<'_, R, G>,
    texts: &[&str],
    outside: &mut Outside<'_, '_, '_, S, O, E>,
) -> Result<Status, Stopped>
    requires texts { list_all is_utf8 (map (λ t. t.now) texts.now) ≡ true }
    ensures same { SamePlaces outside.old outside.new }
    ensures ends { Follows (map (λ t. t.now) texts.now)
        (counts (S.faults outside.old.shelf.now) (O.faults outside.old.out.now) (E.faults outside.old.err.now))
        (counts (S.faults outside.new.shelf.now) (O.faults outside.new.out.now) (E.faults outside.new.err.now))
        (observed (S.holds outside.old.shelf.now) (S.stores outside.old.shelf.now) (O.written outside.old.out.now) (E.written outside.old.err.now))
        (observed (S.holds outside.new.shelf.now) (S.stores outside.new.shelf.now) (O.written outside.new.out.now) (E.written outside.new.err.now))
        (answer result) }
{
    match order_of(host.alloc, texts) {
        Err(NoMemory) => Err(Stopped::NoMemory),
        Ok(None) => refuse_texts(host.alloc, texts, outside.err),
        Ok(Some(Order::Say(saying))) => say(saying, outside.out, outside.err),
        Ok(Some(Order::Generate(seed, functions))) => print_text(
            host.alloc,
            seed,
            functions,
            outside.out,
            outside.err,
        ),
        Ok(Some(Order::Apply(order))) => follow_order(host, &order, outside),
    }
}

/// Reports why words, which are text, are no command.
fn refuse_texts<E: Sink>(alloc: Global, texts: &[&str], err: &mut E) -> Result<Status, Stopped>
    requires texts { list_all is_utf8 (map (λ t. t.now) texts.now) ≡ true }
    requires none { order_of (map (λ t. t.now) texts.now) ≡ None }
    ensures ends { (files : Option Files) (out : Option (List ℕ)) (stores s o : ℕ) → Follows (map (λ t. t.now) texts.now)
        (counts s o (E.faults err.old)) (counts s o (E.faults err.new))
        (observed files stores out (E.written err.old)) (observed files stores out (E.written err.new))
        (answer result) }
{
    let fault = word_fault(alloc, texts)?;
    refuse_words(alloc, err, fault)
}

/// Whether memory ran out, so that nothing is known to be wrong with the patch.
fn is_no_memory(fault: &PatchFault) -> bool
    ensures { IsTrue result ↔ (fault.now ≡ patch_fault.NoMemory) }
{
    matches!(fault, PatchFault::NoMemory)
}

/// Loads and reads the patch, and continues with it.
fn follow_order<R: Threads + Sync, S: Shelf, O: Sink, E: Sink, G: Gate>(
    host: &Host<'_, R, G>,
    order: &PatchOrder<'_>,
    outside: &mut Outside<'_, '_, '_, S, O, E>,
) -> Result<Status, Stopped>
    requires few { few_functions order.now.target }
    ensures same { SamePlaces outside.old outside.new }
    ensures ends { Ends (Doing [] (ReadPatch order.now.patch.now (shown_isos order.now.isos) order.now.defined.items (shown_target order.now.target)))
        (counts (S.faults outside.old.shelf.now) (O.faults outside.old.out.now) (E.faults outside.old.err.now))
        (counts (S.faults outside.new.shelf.now) (O.faults outside.new.out.now) (E.faults outside.new.err.now))
        (observed (S.holds outside.old.shelf.now) (S.stores outside.old.shelf.now) (O.written outside.old.out.now) (E.written outside.old.err.now))
        (observed (S.holds outside.new.shelf.now) (S.stores outside.new.shelf.now) (O.written outside.new.out.now) (E.written outside.new.err.now))
        (answer result) }
{
    let alloc = host.alloc;
    let bytes = match load(alloc, outside.shelf, outside.err, order.patch, PATCH_LIMIT)? {
        Loaded::Bytes(bytes) => bytes,
        Loaded::TooLong => return refuse_patch(
            alloc,
            outside.err,
            order.patch,
            None,
            &PatchFault::PatchTooLong,
        ),
        Loaded::Absent => return refuse_absent(alloc, outside.err, order.patch),
    };
    let text = bytes.as_slice();
    match read_patch(alloc, text) {
        Ok(patch) => {
            let noted = with_notes(alloc, order, text, patch)?;
            give_forms(host, order, noted, outside)
        }
        Err(fault) => {
            if is_no_memory(&fault) {
                return Err(Stopped::NoMemory);
            }
            let at = fault_at(alloc, text, &fault)?;
            let place = told_place(order.target.is_quiet(), placed(text, at));
            refuse_patch(alloc, outside.err, order.patch, place, &fault)
        }
    }
}

/// Gives the patch its forms if isomorphisms are named, and continues with it.
fn give_forms<R: Threads + Sync, S: Shelf, O: Sink, E: Sink, G: Gate>(
    host: &Host<'_, R, G>,
    order: &PatchOrder<'_>,
    noted: Noted,
    outside: &mut Outside<'_, '_, '_, S, O, E>,
) -> Result<Status, Stopped>
    requires few { few_functions order.now.target }
    requires read { (bytes : List ℕ) × IsPatchOf bytes noted.patch }
    ensures same { SamePlaces outside.old outside.new }
    ensures ends { LeadsBy (ReadLeads noted.patch noted.notes (shown_isos order.now.isos) order.now.defined.items
        (shown_target order.now.target))
        (counts (S.faults outside.old.shelf.now) (O.faults outside.old.out.now) (E.faults outside.old.err.now))
        (counts (S.faults outside.new.shelf.now) (O.faults outside.new.out.now) (E.faults outside.new.err.now))
        (observed (S.holds outside.old.shelf.now) (S.stores outside.old.shelf.now) (O.written outside.old.out.now) (E.written outside.old.err.now))
        (observed (S.holds outside.new.shelf.now) (S.stores outside.new.shelf.now) (O.written outside.new.out.now) (E.written outside.new.err.now))
        (answer result) }
{
    // A law: does nothing. What follows needs its contract.
    patches_may_be_used();
    match order.isos {
        None => use_patch(host, order, &noted.patch, &noted.notes, outside),
        Some(name) => load_isos(host, order, noted, name, outside),
    }
}

/// Whether memory ran out, so that nothing is known to be wrong with the isomorphisms.
fn is_no_memory_for_isos(fault: IsoFault) -> bool
    ensures { IsTrue result ↔ (fault ≡ iso_fault.NoMemory) }
{
    matches!(fault, IsoFault::NoMemory)
}

/// Loads and reads the isomorphisms, and continues with the patch under them.
fn load_isos<R: Threads + Sync, S: Shelf, O: Sink, E: Sink, G: Gate>(
    host: &Host<'_, R, G>,
    order: &PatchOrder<'_>,
    noted: Noted,
    name: &str,
    outside: &mut Outside<'_, '_, '_, S, O, E>,
) -> Result<Status, Stopped>
    requires few { few_functions order.now.target }
    requires read { (bytes : List ℕ) × IsPatchOf bytes noted.patch }
    ensures same { SamePlaces outside.old outside.new }
    ensures ends { Ends (Doing [] (ReadIsos noted.patch noted.notes name.now order.now.defined.items
        (shown_target order.now.target)))
        (counts (S.faults outside.old.shelf.now) (O.faults outside.old.out.now) (E.faults outside.old.err.now))
        (counts (S.faults outside.new.shelf.now) (O.faults outside.new.out.now) (E.faults outside.new.err.now))
        (observed (S.holds outside.old.shelf.now) (S.stores outside.old.shelf.now) (O.written outside.old.out.now) (E.written outside.old.err.now))
        (observed (S.holds outside.new.shelf.now) (S.stores outside.new.shelf.now) (O.written outside.new.out.now) (E.written outside.new.err.now))
        (answer result) }
{
    let alloc = host.alloc;
    let bytes = match load(alloc, outside.shelf, outside.err, name, PATCH_LIMIT)? {
        Loaded::Bytes(bytes) => bytes,
        Loaded::TooLong => return refuse_isos(alloc, outside.err, name, None, IsoFault::TooLong),
        Loaded::Absent => return refuse_absent(alloc, outside.err, name),
    };
    let text = bytes.as_slice();
    match read_isos(alloc, text) {
        Ok(isos) => expand_patch(host, order, noted, name, isos.as_slice(), outside),
        Err(fault) => {
            if is_no_memory_for_isos(fault) {
                return Err(Stopped::NoMemory);
            }
            let at = iso_byte(fault);
            let place = told_place(order.target.is_quiet(), placed(text, at));
            refuse_isos(alloc, outside.err, name, place, fault)
        }
    }
}

/// Gives the patch its forms under the isomorphisms of this name, and continues with it.
fn expand_patch<R: Threads + Sync, S: Shelf, O: Sink, E: Sink, G: Gate>(
    host: &Host<'_, R, G>,
    order: &PatchOrder<'_>,
    noted: Noted,
    name: &str,
    isos: &[Iso],
    outside: &mut Outside<'_, '_, '_, S, O, E>,
) -> Result<Status, Stopped>
    requires few { few_functions order.now.target }
    requires read { (bytes : List ℕ) × IsPatchOf bytes noted.patch }
    ensures same { SamePlaces outside.old outside.new }
    ensures ends { LeadsBy (IsosLead isos.now noted.patch noted.notes name.now order.now.defined.items
        (shown_target order.now.target))
        (counts (S.faults outside.old.shelf.now) (O.faults outside.old.out.now) (E.faults outside.old.err.now))
        (counts (S.faults outside.new.shelf.now) (O.faults outside.new.out.now) (E.faults outside.new.err.now))
        (observed (S.holds outside.old.shelf.now) (S.stores outside.old.shelf.now) (O.written outside.old.out.now) (E.written outside.old.err.now))
        (observed (S.holds outside.new.shelf.now) (S.stores outside.new.shelf.now) (O.written outside.new.out.now) (E.written outside.new.err.now))
        (answer result) }
{
    // A law: does nothing. What follows needs its contract.
    patches_may_be_used();
    let Noted { patch, notes } = noted;
    match expand(host.alloc, patch, isos) {
        Ok(whole) => use_patch(host, order, &whole, &notes, outside),
        Err(ExpandFault::NoMemory) => Err(Stopped::NoMemory),
        Err(ExpandFault::TooManyForms(rule)) => refuse_forms(host.alloc, outside.err, name, rule),
    }
}

/// Whether memory ran out while formulas were made.
fn is_no_memory_for_formulas(fault: &FormulaFault) -> bool
    ensures { IsTrue result ↔ (fault.now ≡ formula_fault.NoMemory) }
{
    matches!(fault, FormulaFault::NoMemory)
}

/// Returns the prepared rules of a patch. Each rule has a formula that may be used, so this fails only when out of memory.
fn prepared(alloc: Global, patch: &Patch) -> Result<Prepared, NoMemory>
    requires formulas { (f : Fault) → IsPrepareFault patch.now.rules f → f ≡ formula_fault.NoMemory }
    ensures { IfOk result (λ prepared. ArePrepared patch.now.rules prepared.rules) }
{
    match prepare(alloc, patch) {
        Ok(prepared) => Ok(prepared),
        Err(fault) => {
            let is_memory = is_no_memory_for_formulas(&fault);
            prove!(is_memory);
            Err(NoMemory)
        }
    }
}

/// Applies the patch to what the order names.
fn use_patch<R: Threads + Sync, S: Shelf, O: Sink, E: Sink, G: Gate>(
    host: &Host<'_, R, G>,
    order: &PatchOrder<'_>,
    patch: &Patch,
    notes: &NoteLines,
    outside: &mut Outside<'_, '_, '_, S, O, E>,
) -> Result<Status, Stopped>
    requires few { few_functions order.now.target }
    requires usable { IsUsable patch.now }
    ensures same { SamePlaces outside.old outside.new }
    ensures ends { LeadsBy (TargetLeads patch.now notes.now order.now.defined.items (shown_target order.now.target))
        (counts (S.faults outside.old.shelf.now) (O.faults outside.old.out.now) (E.faults outside.old.err.now))
        (counts (S.faults outside.new.shelf.now) (O.faults outside.new.out.now) (E.faults outside.new.err.now))
        (observed (S.holds outside.old.shelf.now) (S.stores outside.old.shelf.now) (O.written outside.old.out.now) (E.written outside.old.err.now))
        (observed (S.holds outside.new.shelf.now) (S.stores outside.new.shelf.now) (O.written outside.new.out.now) (E.written outside.new.err.now))
        (answer result) }
{
    let prepared = prepared(host.alloc, patch)?;
    let unread = order.target.unread();
    let tidy = order.target.is_tidy();
    let words = words_of_rules(host.alloc, unread, &prepared)?;
    let workers = Workers {
        rt: host.rt,
        alloc: host.alloc,
        gate: host.gate,
        jobs: order.jobs,
    };
    let rules = PatchRules {
        patch,
        prepared: &prepared,
        defined: &order.defined,
        tidy,
        unread,
        words: &words,
    };
    match &order.target {
        Target::Files(mode, names) => edit_files(&workers, &rules, *mode, names, notes, outside),
        Target::Text(seed, functions, quiet, _, _) => sum_text(
            &workers, &rules, *seed, *functions, *quiet, outside,
        ),
    }
}
