// The statuses of a run, and why it stops before its last act.
ghost use Rattle.std.specs.Prelude.{◌≡◌};
ghost use Rattle.run_acts.specs.Statuses.{number_of, status_of};
ghost use Rattle.run_acts.specs.declared.status.Stopped.TheVariants.{NoMemory};

use c_terms::NoMemory;

/// How a run ended. Each status has a number, with which the program exits.
#[derive(Clone, Copy, Debug, PartialEq, Eq)]
pub enum Status {
    /// Everything was done.
    Done = 0,
    /// The words are no command.
    WordsRefused = 1,
    /// The patch is refused.
    PatchRefused = 2,
    /// The isomorphisms are refused.
    IsosRefused = 3,
    /// Some file is refused.
    FileRefused = 4,
    /// Nothing is stored under a name, or its load failed; the line about it was reported.
    CannotRead = 5,
    /// A store or a put failed.
    CannotWrite = 6,
    /// Memory ran out.
    NoMemory = 7,
    /// Under `--check`: something was found, and everything was done.
    Found = 8,
}

impl Status {
    /// Returns the number of the status.
    pub fn number(self) -> u8
        ensures { result ≡ number_of self }
    {
        self as u8
    }
}

/// Why a run stops before its last act.
#[derive(Clone, Copy, Debug, PartialEq, Eq)]
pub enum Stopped {
    /// A load failed, and its line was reported.
    CannotRead,
    /// A store or a put failed.
    CannotWrite,
    /// Memory ran out.
    NoMemory,
}

impl Stopped {
    /// Returns the status that the run ends with.
    pub fn status(self) -> Status
        ensures { number_of result ≡ status_of self }
    {
        match self {
            Stopped::CannotRead => Status::CannotRead,
            Stopped::CannotWrite => Status::CannotWrite,
            Stopped::NoMemory => Status::NoMemory,
        }
    }
}

impl From<NoMemory> for Stopped {
    ghost from_gives = { λ _ stopped. stopped ≡ NoMemory };

    fn from(_: NoMemory) -> Self {
        Stopped::NoMemory
    }
}
