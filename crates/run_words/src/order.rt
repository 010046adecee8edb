// What a command line asks for.
ghost use Rattle.std.specs.Prelude.{◌≤◌};

use c_terms::Text;
use run_choices::Unread;

/// How the result for an edited file is output. With none of the first three, its text is printed.
#[derive(Clone, Copy, Debug, PartialEq, Eq)]
pub struct Mode {
    /// Its witnesses are printed.
    pub witnesses: bool,
    /// Its text is stored under its name.
    pub in_place: bool,
    /// Nothing is stored, and the status says whether something was found. Without `witnesses`, the name of the file is printed
    /// if something was found in it.
    pub check: bool,
    /// The lines that say more are left out.
    pub quiet: bool,
    /// Which of the items that can't be read are told of.
    pub unread: Unread,
    /// The edited text is tidied.
    pub tidy: bool,
}

/// What a patch is applied to.
#[derive(Drop)]
pub enum Target<'a> {
    /// Files, in this order.
    Files(Mode, Vec<&'a str>),
    /// The text that is generated from this seed, with this many functions. The last three say whether the lines that say more
    /// are left out, which of the items that can't be read are told of, and whether the edited text is tidied.
    Text(u64, u32, bool, Unread, bool),
}

/// A request to apply a patch.
#[derive(Drop)]
pub struct PatchOrder<'a> {
    /// The name of the patch.
    pub patch: &'a str,
    /// The name of the isomorphisms.
    pub isos: Option<&'a str>,
    /// The virtual names that are defined.
    pub defined: Vec<Text>,
    pub target: Target<'a>,
    /// The maximum number of concurrent jobs.
    pub jobs: u32,
    pub ghost some_jobs: { 1 ≤ jobs },
    pub ghost few_jobs: { jobs ≤ 64 },
}

/// A text about the program.
#[derive(Clone, Copy, Debug, PartialEq, Eq)]
pub enum Saying {
    /// How to call it.
    Help,
    /// Its name and version.
    Version,
}

/// What a command line asks for.
#[derive(Drop)]
pub enum Order<'a> {
    Apply(PatchOrder<'a>),
    /// Print the text that is generated from this seed, with this many functions.
    Generate(u64, u32),
    /// Print a text about the program.
    Say(Saying),
}
