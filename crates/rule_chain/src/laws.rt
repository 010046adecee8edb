// Laws of all chains.
ghost use Rattle.std.specs.Prelude.{◌≡◌, ◌≤◌, ℕ, Bool, All, List, length};
ghost use Rattle.run_choices.specs.declared.unread.Unread.{Unread};
ghost use Rattle.c_lexer.specs.Pieces.{most_bytes};
ghost use Rattle.smpl_patch.specs.declared.rule.Rule.{Rule};
ghost use Rattle.rule_chain.specs.RuleRun.States.{Chained};
ghost use Rattle.rule_chain.specs.Chain.{Chain, Outcome, Done};
ghost use Rattle.rule_chain.specs.Passed.{LacksWord, IsUntouched, EndsBy, AreAlike, AreToldAlike};

use c_file::read_once;
use c_lexer::cut_once;
use cpp_lines::shown_once;
use edit_bodies::edits_have_one_layout;
use edit_marks::{witnesses_have_one_list, witnesses_have_one_tidied_list};

/// The rules over a text have at most one end, whether or not it is tidied. Does nothing.
pub fn chain_has_one_end()
    ensures { (tidy : Bool) (rules : List Rule) (defined : List (List ℕ)) (bytes : List ℕ) (end other : Outcome) →
        Chain tidy rules defined bytes end → Chain tidy rules defined bytes other → end ≡ other }
{
    cut_once();
    read_once();
    shown_once();
    witnesses_have_one_list();
    witnesses_have_one_tidied_list();
    edits_have_one_layout();
}

/// Which notes are told changes nothing else, and a text that is passed over ends as if it had been read, whether or not texts
/// are tidied.
///
/// - `passed`: where each rule lacks a word that it needs, the chain ends without a fault and leaves the text as it is. It
///   finds nothing, and no item that it can't read is needed.
/// - `alike`: whichever notes are told, the rules over a text end in the same text, witnesses and environments, or at the same
///   fault.
/// - `told`: the same notes are told, whether the text is read or passed over.
///
/// Does nothing.
pub fn unread_changes_notes_alone()
    ensures passed { (tidy : Bool) (rules : List Rule) (defined : List (List ℕ)) (bytes : List ℕ) (end : Outcome) →
        length bytes ≤ most_bytes → All (LacksWord bytes) rules → Chain tidy rules defined bytes end →
        (s : Chained) × ((end ≡ Done s) × IsUntouched bytes s) }
    ensures alike { (tidy : Bool) (one other : Unread) (rules : List Rule) (defined : List (List ℕ)) (bytes : List ℕ)
        (end last : Outcome) → length bytes ≤ most_bytes → EndsBy tidy one rules defined bytes end →
        EndsBy tidy other rules defined bytes last → AreAlike end last }
    ensures told { (tidy : Bool) (choice : Unread) (rules : List Rule) (defined : List (List ℕ)) (bytes : List ℕ)
        (end last : Outcome) → length bytes ≤ most_bytes → EndsBy tidy choice rules defined bytes end →
        EndsBy tidy choice rules defined bytes last → AreToldAlike choice end last }
{
    chain_has_one_end();
}
