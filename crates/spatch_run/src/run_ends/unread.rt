// What `--unread` is for. The function does nothing.
ghost use Rattle.std.specs.Prelude.{◌≡◌, ℕ, List, true, is_some};
ghost use Rattle.run_acts.specs.Acts.{Act, Observed};
ghost use Rattle.run_choices.specs.declared.unread.Unread.TheVariants as unread;
ghost use Rattle.run_files.specs.RunStages.Paths.{AreActs};
ghost use Rattle.run_words.specs.Orders.{order_of, told_in};
ghost use Rattle.run_words.specs.UnreadLaws.Choices.{SameButUnread};
ghost use Rattle.spatch_run.specs.RunEnds.Unread.{AreButLines, SameButTold};

use crate::run_laws::acts_have_a_reason;
use run_words::unread_changes_targets;

/// Words with `--unread` have the acts and the status that they have without, but some lines of items that can't be read are left
/// out. This holds whatever the shelf reveals.
///
/// - `acts`: a list of acts of words that tell of all such items is, with some of these lines left out, a list of acts of words
///   that ask for the same and tell of others, with the same status.
/// - `words`: words that are a command, name a patch and don't give `--unread` or give `all`, and words that differ from them only
///   in `--unread`, ask for the same.
///
/// Does nothing.
pub fn unread_changes_lines()
    ensures acts { (words others : List (List ℕ)) (old : Observed) (acts : List Act) (status : ℕ) → SameButTold words others →
        AreActs words old acts status → (left : List Act) × (AreActs others old left status × AreButLines acts left) }
    ensures words { (words others : List (List ℕ)) → (same : SameButUnread words others) → told_in same.options ≡ unread.All →
        is_some (order_of words) ≡ true → SameButTold words others }
{
    unread_changes_targets();
    acts_have_a_reason();
}
