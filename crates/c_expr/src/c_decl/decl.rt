// Declarations.
ghost use Rattle.std.specs.Prelude.{◌≤◌, length, slice_range};
ghost use Rattle.c_rows.specs.declared.kind.Kind.TheVariants as kinds;
ghost use Rattle.c_expr.specs.Answer.{Reads};

use crate::{ParseFault, parse_kind};
use c_rows::Kind;
use c_terms::{Names, Token, Tree};
use std::alloc::Global;

/// Returns the one declaration that spells the tokens `from..to` (C11 6.7), with the forms of patterns. Costs as much as
/// [`parse_kind`].
pub fn parse_decl(
    alloc: Global,
    tokens: &[Token],
    names: &Names,
    from: usize,
    to: usize,
) -> Result<Tree, ParseFault>
    requires order { from ≤ to }
    requires inside { to ≤ length tokens.now }
    ensures reads { Reads kinds.Decl names.now (slice_range tokens.now from to) result }
{
    parse_kind(alloc, Kind::Decl, tokens, names, from, to)
}
