// Lists of statements.
ghost use Rattle.std.specs.Prelude.{◌≤◌, length, slice_range};
ghost use Rattle.c_rows.specs.declared.kind.Kind.TheVariants as kinds;
ghost use Rattle.c_expr.specs.Answer.{Reads};

use crate::{ParseFault, parse_kind};
use c_rows::Kind;
use c_terms::{Names, Token, Tree};
use std::alloc::Global;

/// Returns the one list of statements that spells the tokens `from..to` (C11 6.8), with the forms of patterns. The list
/// may be empty. Costs as much as [`parse_kind`].
pub fn parse_stmts(
    alloc: Global,
    tokens: &[Token],
    names: &Names,
    from: usize,
    to: usize,
) -> Result<Tree, ParseFault>
    requires order { from ≤ to }
    requires inside { to ≤ length tokens.now }
    ensures reads { Reads kinds.StmtList names.now (slice_range tokens.now from to) result }
{
    parse_kind(alloc, Kind::StmtList, tokens, names, from, to)
}
