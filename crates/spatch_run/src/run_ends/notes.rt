// When notes on the patch are told. The function does nothing.
ghost use Rattle.std.specs.Prelude.{ℕ, List};
ghost use Rattle.run_acts.specs.Acts.{Act, Observed};
ghost use Rattle.run_files.specs.RunStages.Paths.{AreActs};
ghost use Rattle.spatch_run.specs.RunEnds.Quiet.{EndsInNotes};

use crate::run_laws::acts_have_a_reason;

/// The notes of a whole run, which are reports that begin with two blanks, are its last acts; and if there are some, its status
/// is 0 or 8. This holds whatever the shelf reveals. Does nothing.
pub fn notes_come_last()
    ensures { (words : List (List ℕ)) (old : Observed) (acts : List Act) (status : ℕ) → AreActs words old acts status →
        EndsInNotes acts status }
{
    acts_have_a_reason();
}
