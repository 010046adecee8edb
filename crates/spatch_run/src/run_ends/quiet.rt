// What `--quiet` is for. The function does nothing.
ghost use Rattle.std.specs.Prelude.{◌≡◌, ◌≢◌, ℕ, Bool, List, true, false, is_some};
ghost use Rattle.run_acts.specs.Acts.{Act, Observed};
ghost use Rattle.run_files.specs.RunStages.Paths.{AreActs};
ghost use Rattle.run_words.specs.Orders.{order_of};
ghost use Rattle.run_words.specs.FlagLaws.Flags.{SameButFlags};
ghost use Rattle.spatch_run.specs.RunEnds.Quiet.{quieted, KeepsLine, SameButQuiet};

use crate::run_laws::acts_have_a_reason;
use run_words::flags_change_modes;

/// Words that ask for the same with `--quiet` have the same acts and the same status, but for lines that begin with two blanks.
/// This holds whatever the shelf reveals.
///
/// - `acts`: if the patch isn't refused, a list of acts of the first words, without the reports that begin with two blanks, and
///   with the first line of each other report, is a list of acts of the words with `--quiet`, with the same status.
/// - `fault`: if the patch is refused, the words with `--quiet` have the same load and the same line, and what they leave out
///   is nothing or begins with two blanks.
/// - `words`: words that are a command, and differ only in `--quiet`, ask for the same.
///
/// Does nothing.
pub fn quiet_leaves_lines_out()
    ensures acts { (words others : List (List ℕ)) (old : Observed) (acts : List Act) (status : ℕ) → SameButQuiet words others →
        AreActs words old acts status → status ≢ 2 → AreActs others old (quieted acts) status }
    ensures fault { (words others : List (List ℕ)) (old : Observed) (acts : List Act) → SameButQuiet words others →
        AreActs words old acts 2 → (fewer : List Act) × (AreActs others old fewer 2 × KeepsLine acts fewer) }
    ensures words { (plain words others : List (List ℕ)) (check : Bool) → SameButFlags plain words check false →
        SameButFlags plain others check true → is_some (order_of plain) ≡ true → SameButQuiet words others }
{
    flags_change_modes();
    acts_have_a_reason();
}
