//! Words that differ only in `--unread` ask for the same, but for this.
//!
//! - [`unread_changes_targets`]: such words ask for the same patch on the same files or text, and have the same fault.
//!
//! `--sp-file p --unread none k.c` asks for what `--sp-file p k.c` asks for, without a line for any item that can't be read.
//!
//! The function does nothing.
#![tactic(auto)]

ghost use Rattle.std.specs.Prelude.{◌≡◌, ℕ, List, option_map, true};
ghost use Rattle.std.specs.List.{list_all};
ghost use Rattle.std.specs.Str.{is_utf8};
ghost use Rattle.run_words.specs.Faults.{word_fault};
ghost use Rattle.run_words.specs.Orders.{order_of, told_in};
ghost use Rattle.run_words.specs.UnreadLaws.Choices.{SameButUnread, order_telling, with_unread};

/// Words with another `--unread`, or with none, ask for what they ask for otherwise, except for which items that can't be read
/// are told of. If all are UTF-8 they have the same fault. Does nothing.
pub fn unread_changes_targets()
    ensures order { (words others : List (List ℕ)) → (same : SameButUnread words others) →
        order_of others ≡ option_map (order_telling (told_in (with_unread same.choice same.options))) (order_of words) }
    ensures fault { (words others : List (List ℕ)) → SameButUnread words others → list_all is_utf8 words ≡ true →
        word_fault others ≡ word_fault words }
{}
