//! Words that differ only in `--check` and `--quiet` ask for the same, but for these.
//!
//! - [`flags_change_modes`]: such words ask for the same patch on the same files or text, and have the same fault.
//!
//! `--sp-file p --quiet k.c` asks for what `--sp-file p k.c` asks for, without further lines.
//!
//! The function does nothing.
#![tactic(auto)]

ghost use Rattle.std.specs.Prelude.{◌≡◌, ℕ, Bool, List, option_map, true};
ghost use Rattle.std.specs.List.{list_all};
ghost use Rattle.std.specs.Str.{is_utf8};
ghost use Rattle.run_words.specs.Faults.{word_fault};
ghost use Rattle.run_words.specs.Orders.{order_of};
ghost use Rattle.run_words.specs.FlagLaws.Flags.{SameButFlags, order_with};

/// Words with `--check` or `--quiet` ask for what they ask for without, but for the mode: words without them mean what they
/// always meant. If all are UTF-8 they have the same fault. Does nothing.
pub fn flags_change_modes()
    ensures order { (words others : List (List ℕ)) (check quiet : Bool) → SameButFlags words others check quiet →
        order_of others ≡ option_map (order_with check quiet) (order_of words) }
    ensures fault { (words others : List (List ℕ)) (check quiet : Bool) → SameButFlags words others check quiet →
        list_all is_utf8 words ≡ true → word_fault others ≡ word_fault words }
{}
