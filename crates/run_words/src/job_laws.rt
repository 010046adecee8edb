//! Words that differ only in their jobs ask for the same.
//!
//! - [`jobs_leave_orders`]: what such words ask for is the same, and doesn't depend on the number of jobs.
//!
//! `--sp-file p --jobs 8 k.c` asks for what `--sp-file p k.c` asks for.
//!
//! The function does nothing.
#![tactic(auto)]

ghost use Rattle.std.specs.Prelude.{◌≡◌, ℕ, List, true};
ghost use Rattle.std.specs.List.{list_all};
ghost use Rattle.std.specs.Str.{is_utf8};
ghost use Rattle.run_words.specs.Faults.{word_fault};
ghost use Rattle.run_words.specs.Orders.{order_of};
ghost use Rattle.run_words.specs.JobLaws.Jobs.{SameButJobs};

/// Words that differ only in their jobs ask for the same, and have the same fault if all of them are UTF-8. Does nothing.
pub fn jobs_leave_orders()
    ensures order { (words others : List (List ℕ)) → SameButJobs words others → order_of others ≡ order_of words }
    ensures fault { (words others : List (List ℕ)) → SameButJobs words others → list_all is_utf8 words ≡ true →
        word_fault others ≡ word_fault words }
{}
