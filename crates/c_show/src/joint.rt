// Whether two texts need a space between them.
ghost use Rattle.std.specs.Prelude.{◌≡◌};
ghost use Rattle.c_show.specs.Joint.{runs_together};

use c_lexer::parts;

/// Whether two texts run together if there is no space between them: the left one is not the first piece of both, or
/// it is `.` and the right one begins with `.`, which a third `.` would join. Linear time, and allocates no memory.
pub fn runs_together(left: &[u8], right: &[u8]) -> bool
    ensures value { result ≡ runs_together left.now right.now }
{
    parts(left, right)
}
