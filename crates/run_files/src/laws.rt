// What holds for every refusal.
ghost use Rattle.std.specs.Prelude.{Bool, List, ℕ};
ghost use Rattle.smpl_patch.specs.declared.rule.Rule.{Rule};
ghost use Rattle.rule_chain.specs.declared.rule_run.fault.FileFault.TheVariants as cause;
ghost use Rattle.rule_chain.specs.Chain.{Refused};
ghost use Rattle.rule_chain.specs.Passed.{EndsBy};
ghost use Rattle.run_choices.specs.declared.unread.Unread.{Unread};

/// No text is refused because memory ran out, so the line of a refusal always says why. Does nothing.
pub fn refusals_say_why()
    ensures { (tidy : Bool) (unread : Unread) (rules : List Rule) (defined : List (List ℕ)) (bytes : List ℕ) →
        EndsBy tidy unread rules defined bytes (Refused cause.NoMemory) → ⊥ }
{}
