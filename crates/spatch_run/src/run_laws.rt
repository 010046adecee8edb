//! What holds for every run, whatever it is called with.
//!
//! - [`acts_are_one_list`] is a law: its clauses hold, and it does nothing. If the shelf reveals its files, words have only one
//!   list of acts, with one status.
//! - [`acts_have_a_reason`]: the stages of a run and the plain description of its acts, file by file, are equivalent.
//! - [`statuses_have_a_cause`]: each status is returned for its cause, and a status with a cause must be returned if nothing
//!   fails.
#![tactic(auto)]

ghost use Rattle.std.specs.Prelude.{◌≡◌, ◌∷◌, ◌++◌, ℕ, List, IsSome};
ghost use Rattle.smpl_patch.specs.declared.rule.Patch.{Patch as Whole};
ghost use Rattle.run_acts.specs.Acts.{Act, Observed};
ghost use Rattle.run_acts.specs.Breaks.{Counts};
ghost use Rattle.run_files.specs.RunStages.Paths.{AreActs, ComesTo};
ghost use Rattle.run_files.specs.RunStages.Promise.{EndsRightly};
ghost use Rattle.run_words.specs.declared.order.Mode.{Mode as HowFiles};
ghost use Rattle.run_words.specs.Orders.{OnFiles};
ghost use Rattle.run_files.specs.declared.run_lines.notes.NoteLines.{NoteLines};
ghost use Rattle.run_files.specs.Treatment.{Treated, IsTreatmentOf};
ghost use Rattle.run_files.specs.RunStages.Stages.{first_course};
ghost use Rattle.run_files.specs.RunStages.Reasons.{FilesDo, FilesEnd, PatchReady, Reason, files_status};
ghost use Rattle.run_files.specs.RunStages.Causes.{Causes};

use c_places::places_are_one;
use read_laws::{isos_are_read_once, patches_are_expanded_once, patches_have_one_fault};
use rule_chain::unread_changes_notes_alone;
use smpl_file::patches_are_read_once;
use smpl_notes::patches_are_noted_once;
use smpl_places::faults_have_one_place;

/// A list of words has only one list of acts if the shelf reveals its files: nothing else determines them.
///
/// - `same`: two lists of acts of the same words and the same files are equal, and so are their statuses.
/// - `begins`: the acts that a run has done so far, followed by its next act, are a prefix of that list.
/// - `files`: if the patch has all its forms and files are to be edited, the list goes on with the acts of the files in turn,
///   and the status is the one after them.
/// - `treated`: what results from the text of a file is determined.
///
/// Does nothing.
pub fn acts_are_one_list()
    ensures same { (words : List (List ℕ)) (old other : Observed) (acts others : List Act) (status status' : ℕ) →
        IsSome old.files → other.files ≡ old.files → AreActs words old acts status →
        AreActs words other others status' → (acts ≡ others) × (status ≡ status') }
    ensures begins { (words : List (List ℕ)) (old other mid : Observed) (next : Act) (acts : List Act) (status : ℕ) →
        IsSome old.files → other.files ≡ old.files → (comes : ComesTo words old mid next) →
        AreActs words other acts status → (rest : List Act) × (acts ≡ comes.acts ++ next ∷ rest) }
    ensures files { (words : List (List ℕ)) (old : Observed) (patch : Whole) (lines : NoteLines) (defined : List (List ℕ))
        (mode : HowFiles) (names : List (List ℕ)) (before acts : List Act) (status : ℕ) →
        IsSome old.files → PatchReady words old patch lines defined (OnFiles mode names) before →
        AreActs words old acts status →
        (rest : List Act) × ((end : FilesEnd) × (FilesDo old patch defined mode names (first_course lines) rest end
        × ((acts ≡ before ++ rest) × (status ≡ files_status end)))) }
    ensures treated { (mode : HowFiles) (patch : Whole) (defined : List (List ℕ)) (name bytes : List ℕ) (one other : Treated) →
        IsTreatmentOf mode patch defined name bytes one → IsTreatmentOf mode patch defined name bytes other → one ≡ other }
{
    patches_are_read_once();
    patches_are_noted_once();
    patches_have_one_fault();
    isos_are_read_once();
    patches_are_expanded_once();
    unread_changes_notes_alone();
    faults_have_one_place();
    places_are_one();
}

/// The acts of a whole run have a reason, which mentions no stage, and acts that have a reason are those of a whole run.
///
/// - `reason`: the acts of a whole run are those of one of the ways a run can go, and its status is the status of that way.
/// - `ways`: each of these ways is a whole run.
///
/// Does nothing.
pub fn acts_have_a_reason()
    ensures reason { (words : List (List ℕ)) (old : Observed) (acts : List Act) (status : ℕ) →
        AreActs words old acts status → Reason words old acts status }
    ensures ways { (words : List (List ℕ)) (old : Observed) (acts : List Act) (status : ℕ) →
        Reason words old acts status → AreActs words old acts status }
{}

/// If a run ends rightly, each status that it may return has its cause, and a status with a cause must be returned if nothing
/// fails. Does nothing.
pub fn statuses_have_a_cause()
    ensures { (words : List (List ℕ)) (before now : Counts) (old new : Observed) (status : ℕ) →
        EndsRightly words before now old new status → Causes words before now old new status }
{
    acts_are_one_list();
    acts_have_a_reason();
}
