// No act depends on the number of jobs. The function does nothing.
ghost use Rattle.std.specs.Prelude.{◌≡◌, ◌∷◌, ◌++◌, [], ℕ, List, None, true, is_some};
ghost use Rattle.std.specs.List.{list_all};
ghost use Rattle.std.specs.Str.{is_utf8};
ghost use Rattle.run_acts.specs.Acts.{Act, Report, Observed};
ghost use Rattle.run_files.specs.RunLines.Words.{usage};
ghost use Rattle.run_files.specs.RunStages.Paths.{AreActs, ComesTo};
ghost use Rattle.run_words.specs.Orders.{order_of};
ghost use Rattle.run_words.specs.JobLaws.Jobs.{SameButJobs};

use run_words::jobs_leave_orders;

/// Words that differ only in their jobs ask for the same, and so have the same acts. This holds whatever the shelf reveals, and
/// also if it reveals nothing about its files.
///
/// - `acts`: if the words are a command, a list of acts of the first words, with its status, is a list of acts of the second ones.
/// - `comes`: then an act that a run with the first words may come to, a run with the second ones may come to as well.
/// - `wrong_acts`, `wrong_comes`: the same holds of words that are no command, if they are UTF-8: what is wrong is the same.
/// - `usage`: words that are no command have one act, a report that begins with the usage line, and their status is 1. What
///   follows in it may tell the number of a word that isn't UTF-8, which depends on the words before it.
///
/// Does nothing.
pub fn jobs_leave_acts()
    ensures acts { (words others : List (List ℕ)) (old : Observed) (acts : List Act) (status : ℕ) →
        SameButJobs words others → is_some (order_of words) ≡ true → AreActs words old acts status → AreActs others old acts status }
    ensures comes { (words others : List (List ℕ)) (old mid : Observed) (next : Act) →
        SameButJobs words others → is_some (order_of words) ≡ true → ComesTo words old mid next → ComesTo others old mid next }
    ensures wrong_acts { (words others : List (List ℕ)) (old : Observed) (acts : List Act) (status : ℕ) →
        SameButJobs words others → list_all is_utf8 words ≡ true → AreActs words old acts status → AreActs others old acts status }
    ensures wrong_comes { (words others : List (List ℕ)) (old mid : Observed) (next : Act) →
        SameButJobs words others → list_all is_utf8 words ≡ true → ComesTo words old mid next → ComesTo others old mid next }
    ensures usage { (words : List (List ℕ)) (old : Observed) (acts : List Act) (status : ℕ) →
        order_of words ≡ None → AreActs words old acts status → (status ≡ 1) × ((more : List ℕ) × (acts ≡ Report (usage ++ more) ∷ [])) }
{
    jobs_leave_orders();
}
