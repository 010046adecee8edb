// What is known of the texts that a run has processed.
ghost use Rattle.std.specs.Prelude.{◌≡◌, ◌||◌};
ghost use Rattle.run_files.specs.Treatment.{refused_tally};
ghost use Rattle.run_files.specs.RunStages.Stages as stages;

/// What is known of the texts that a run has processed.
#[derive(Clone, Copy, Debug, PartialEq, Eq)]
pub struct Tally {
    /// Whether some text was refused.
    pub refused: bool,
    /// Whether, under `--check`, some text was hit: it differs from what was loaded, or a rule with a star found something in it.
    pub hit: bool,
    /// Whether something was found in some text.
    pub found: bool,
}

/// Whether at least one of two holds.
fn either(one: bool, other: bool) -> bool
    ensures { result ≡ (one || other) }
{
    one || other
}

impl Tally {
    /// Returns the tally of no text.
    pub fn none() -> Tally
        ensures { result ≡ stages.no_tally }
    {
        Tally {
            refused: false,
            hit: false,
            found: false,
        }
    }

    /// Returns the tally of a text that was refused, of which nothing else is known.
    pub fn of_refused() -> Tally
        ensures { result ≡ refused_tally }
    {
        Tally {
            refused: true,
            hit: false,
            found: false,
        }
    }

    /// Returns the tally of the texts of both.
    pub fn join(self, other: Tally) -> Tally
        ensures { result ≡ stages.joined self other }
    {
        Tally {
            refused: either(self.refused, other.refused),
            hit: either(self.hit, other.hit),
            found: either(self.found, other.found),
        }
    }
}
