// The result for a file, made from the last state.
ghost use Rattle.std.specs.Prelude.{◌≡◌, IfOk};
ghost use Rattle.run_choices.specs.declared.unread.Unread.{Unread as Choice};
ghost use Rattle.rule_chain.specs.RuleRun.States.{Chained, told_notes};
ghost use Rattle.rule_chain.specs.RuleRun.Outcomes.{AreFindingsOf};
ghost use Rattle.rule_chain.specs.Results.{AnswersState};

use crate::rule_run::{FileState, SkipNote};
use crate::state::Applied;
use c_terms::NoMemory;
use rule_envs::envs_of;
use sqlite_items::Items;
use std::alloc::Global;

/// Returns the result for a file whose text after the last rule is `bytes`, given the notes that are told.
pub fn answer(
    alloc: Global,
    bytes: Vec<u8>,
    skipped: Items<SkipNote>,
    findings: FileState,
) -> Result<Applied, NoMemory>
    ensures { IfOk result (λ applied. (choice : Choice) (s : Chained) → AreFindingsOf findings s → bytes.items ≡ s.page.bytes
        → told_notes choice s ≡ skipped → AnswersState choice applied s) }
{
    let FileState {
        file_envs,
        had: _,
        found,
    } = findings;
    let envs = envs_of(alloc, file_envs.as_slice())?;
    Ok(Applied {
        bytes,
        witnesses: found,
        skipped,
        envs,
    })
}
