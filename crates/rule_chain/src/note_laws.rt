// Laws of the notes on items that can't be read.
ghost use Rattle.std.specs.Prelude.{◌≡◌, ◌↔◌, ℕ, Bool, List, true};
ghost use Rattle.cpp_lines.specs.declared.span.ItemSpan.{ItemSpan};
ghost use Rattle.c_file.specs.File.{FileItems};
ghost use Rattle.smpl_patch.specs.declared.rule.Rule.{Rule};
ghost use Rattle.run_choices.specs.declared.unread.Unread.{Unread};
ghost use Rattle.ctl_translate.specs.Rules.{formula_of};
ghost use Rattle.rule_chain.specs.RuleRun.Needed.{needs_word, holds_word, holds_words};
ghost use Rattle.rule_chain.specs.RuleRun.States.{Chained, told_notes};
ghost use Rattle.rule_chain.specs.Chain.{Chain, Done};
ghost use Rattle.rule_chain.specs.Told.{AreSome};

/// An item counts as one that has all words of a rule exactly if each word that the rule needs is one of its visible tokens.
/// Does nothing.
pub fn needed_words_are_held()
    ensures { (file : FileItems) (span : ItemSpan) (rule : Rule) → (holds_words file span rule ≡ true)
        ↔ ((w : List ℕ) → needs_word rule.tokens (formula_of rule) w ≡ true → holds_word file span w ≡ true) }
{}

/// Whether or not texts are tidied: whichever notes are told of a text that is read, they are some of the notes on all items
/// that can't be read, in their order. Does nothing.
pub fn told_notes_are_some()
    ensures { (tidy : Bool) (choice : Unread) (rules : List Rule) (defined : List (List ℕ)) (bytes : List ℕ) (s : Chained) →
        Chain tidy rules defined bytes (Done s) → AreSome (told_notes choice s) s.skipped }
{}
