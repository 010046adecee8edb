// What a token does to a scan for the end of a member of a list.
ghost use Rattle.std.specs.Prelude.{◌≡◌};
ghost use Rattle.c_rows.specs.Scan as scans;

use crate::Class;

/// What a token does to a scan for the end of a member of a list.
#[derive(Clone, Copy)]
pub enum Turn {
    /// It opens a bracket.
    Opening,
    /// It closes a bracket.
    Closing,
    /// A `?`
    Asking,
    /// A comma
    Parting,
    /// Any other
    Plain,
}

/// Returns what a token of this class does to a scan for the end of a member. Allocates no memory.
pub fn turn_at(class: Class) -> Turn
    ensures value { result ≡ scans.turn class }
{
    match class {
        Class::ParenNest | Class::ParenList | Class::CastNest | Class::CastList => Turn::Opening,
        Class::LiteralNest | Class::LiteralList | Class::LeftBracket => Turn::Opening,
        Class::LeftBrace | Class::PatOpen | Class::PatOpenOfStatements => Turn::Opening,
        Class::Close | Class::RightBracket | Class::RightBrace | Class::PatClose => Turn::Closing,
        Class::Question => Turn::Asking,
        Class::Comma => Turn::Parting,
        _ => Turn::Plain,
    }
}
