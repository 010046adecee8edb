// Why words are no command.
use crate::option_name::OptionName;
use c_terms::Text;

/// What is needed and absent.
#[derive(Clone, Copy, Debug, PartialEq, Eq)]
pub enum Need {
    /// `--sp-file`.
    Patch,
    /// A file.
    File,
    /// `--functions`.
    Functions,
}

/// Why words are no command. An option is named as it is written, without `=` and what follows.
#[derive(Drop)]
pub enum WordFault {
    /// The word with this number, counted from 1, isn't UTF-8.
    NotText(usize),
    /// This is no option; maybe one was meant.
    NoSuchOption(Text, Option<OptionName>),
    /// The value of this option is absent.
    ValueAbsent(Text),
    /// This option has a value and takes none.
    TakesNone(Text),
    /// This option stands twice.
    StandsTwice(Text),
    /// This is no value for this option.
    BadValue(OptionName, Text),
    /// Something is needed and absent.
    Needed(Need),
    /// These two options don't go together.
    Apart(OptionName, OptionName),
    /// This option and a file don't go together.
    ApartFromFiles(OptionName),
}
