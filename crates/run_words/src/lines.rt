// Which lines on the error output are asked for, and whether edited texts are tidied.
ghost use Rattle.std.specs.Prelude.{◌≡◌};
ghost use Rattle.run_words.specs.Orders as spec;
ghost use Rattle.run_words.specs.Shown.{shown_target};

use crate::order::Target;
use run_choices::Unread;

impl<'a> Target<'a> {
    /// Whether the lines that say more, which begin with two blanks, are left out.
    pub fn is_quiet(&self) -> bool
        ensures quiet { result ≡ spec.is_quiet (shown_target self.now) }
    {
        match self {
            Target::Files(mode, _) => mode.quiet,
            Target::Text(_, _, quiet, _, _) => *quiet,
        }
    }

    /// Which of the items that can't be read are told of.
    pub fn unread(&self) -> Unread
        ensures unread { result ≡ spec.unread_of (shown_target self.now) }
    {
        match self {
            Target::Files(mode, _) => mode.unread,
            Target::Text(_, _, _, unread, _) => *unread,
        }
    }

    /// Whether the edited texts are tidied.
    pub fn is_tidy(&self) -> bool
        ensures tidy { result ≡ spec.is_tidy (shown_target self.now) }
    {
        match self {
            Target::Files(mode, _) => mode.tidy,
            Target::Text(_, _, _, _, tidy) => *tidy,
        }
    }
}
