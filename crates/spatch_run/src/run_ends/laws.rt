// Words have acts, and runs are complete. The functions do nothing.
ghost use Rattle.std.specs.Prelude.{◌≡◌, ◌⊎◌, ℕ, List, IsSome, true, false};
ghost use Rattle.run_acts.specs.Acts.{Act, Observed};
ghost use Rattle.run_acts.specs.Breaks.{Counts, NoneRose};
ghost use Rattle.smpl_patch.specs.declared.rule.Patch.{Patch as Whole};
ghost use Rattle.run_words.specs.declared.order.Mode.{Mode as HowFiles};
ghost use Rattle.run_words.specs.Orders.{OnFiles, asks_tidy};
ghost use Rattle.run_files.specs.declared.run_lines.notes.NoteLines.{NoteLines};
ghost use Rattle.run_files.specs.RunStages.Paths.{AreActs};
ghost use Rattle.run_files.specs.RunStages.Promise.{EndsRightly};
ghost use Rattle.run_files.specs.RunStages.Reasons.{PatchReady};
ghost use Rattle.text_laws.specs.ChainTotal.Weakly.{Weakly};
ghost use Rattle.spatch_run.specs.RunEnds.Fates.{AllThere, NoneRefused, SomeRefused, NoneHit, SomeHit};

use crate::run_laws::{acts_are_one_list, acts_have_a_reason};
use read_laws::{bytes_are_read, patches_get_their_forms};
use smpl_notes::patches_have_notes;
use smpl_places::faults_have_places;
use text_laws::chains_have_an_end;

/// It is impossible that some words without `--tidy` have no list of acts, whatever a shelf reveals. Does nothing.
pub fn words_have_acts()
    ensures { (words : List (List ℕ)) (old : Observed) → asks_tidy words ≡ false →
        Weakly ((acts : List Act) × ((status : ℕ) × AreActs words old acts status)) }
{
    bytes_are_read();
    faults_have_places();
    patches_have_notes();
    patches_get_their_forms();
    chains_have_an_end();
    acts_have_a_reason();
}

/// The status of a run that edits files, if the shelf reveals its files, no count of faults rises, the patch is read (and gets
/// its forms if isomorphisms are named), and each file is present in its turn.
///
/// - `fine`: if no file is refused, and under `--check` none is hit, the status is 0, or 7 if memory ran out.
/// - `hit`: if no file is refused and some file is hit, which happens only under `--check`, the status is 8, or 7 if memory ran
///   out.
/// - `refused`: if some file is refused, the status is 4, or 7 if memory ran out.
///
/// Does nothing.
pub fn runs_are_complete()
    ensures fine { (words : List (List ℕ)) (before now : Counts) (old new : Observed) (status : ℕ) (patch : Whole)
        (lines : NoteLines) (defined : List (List ℕ)) (mode : HowFiles) (names : List (List ℕ)) (acts : List Act) →
        IsSome old.files → NoneRose before now → EndsRightly words before now old new status →
        PatchReady words old patch lines defined (OnFiles mode names) acts → AllThere patch defined mode old names →
        NoneRefused patch defined mode old names → (mode.check ≡ true → NoneHit patch defined mode old names) →
        (status ≡ 0) ⊎ (status ≡ 7) }
    ensures hit { (words : List (List ℕ)) (before now : Counts) (old new : Observed) (status : ℕ) (patch : Whole)
        (lines : NoteLines) (defined : List (List ℕ)) (mode : HowFiles) (names : List (List ℕ)) (acts : List Act) →
        IsSome old.files → NoneRose before now → EndsRightly words before now old new status →
        PatchReady words old patch lines defined (OnFiles mode names) acts → AllThere patch defined mode old names →
        NoneRefused patch defined mode old names → SomeHit patch defined mode old names → (status ≡ 8) ⊎ (status ≡ 7) }
    ensures refused { (words : List (List ℕ)) (before now : Counts) (old new : Observed) (status : ℕ) (patch : Whole)
        (lines : NoteLines) (defined : List (List ℕ)) (mode : HowFiles) (names : List (List ℕ)) (acts : List Act) →
        IsSome old.files → NoneRose before now → EndsRightly words before now old new status →
        PatchReady words old patch lines defined (OnFiles mode names) acts → AllThere patch defined mode old names →
        SomeRefused patch defined mode old names → (status ≡ 4) ⊎ (status ≡ 7) }
{
    acts_are_one_list();
}
