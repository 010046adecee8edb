// What is printed of a file.
ghost use Rattle.std.specs.Prelude.{◌≡◌, ◌&&◌, List, ℕ};
ghost use Rattle.smpl_patch.specs.declared.rule.Patch.{Patch as Rules};
ghost use Rattle.rule_chain.specs.RuleRun.States.{Chained};
ghost use Rattle.run_files.specs.Treatment as treatment;
ghost use Rattle.run_files.specs.Shows.{printed};

use run_words::Mode;

/// What is printed of a file.
#[derive(Clone, Copy, Debug, PartialEq, Eq)]
pub enum Shown {
    /// The report of the witnesses.
    Report,
    /// Its name.
    Name,
    /// Its new text.
    Text,
    Nothing,
}

fn name_if(hit: bool) -> Shown
    ensures { (patch : Rules) (name : List ℕ) (s : Chained) → printed result patch name s ≡ treatment.naming name hit }
{
    if hit { Shown::Name } else { Shown::Nothing }
}

/// Returns what is printed of a file, given whether it is hit under `--check`: the report of the witnesses if it is asked for, or
/// else under `--check` the name of a file that is hit, or else the text if it isn't stored.
pub fn what_is_shown(mode: Mode, hit: bool) -> Shown
    ensures { (patch : Rules) (name bytes : List ℕ) (s : Chained) → hit ≡ (mode.check && treatment.is_hit patch bytes s) →
        printed result patch name s ≡ treatment.shown mode patch name bytes s }
{
    if mode.witnesses {
        return Shown::Report;
    }
    if mode.check {
        return name_if(hit);
    }
    if mode.in_place {
        return Shown::Nothing;
    }
    Shown::Text
}
