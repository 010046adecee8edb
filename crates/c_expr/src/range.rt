// Whole ranges.
ghost use Rattle.std.specs.Prelude.{◌≡◌, ◌≤◌, IsTrue, IfOk, Err, [], length, slice_range};
ghost use Rattle.c_terms.specs.declared.tree.Tree.{Tree};
ghost use Rattle.c_terms.specs.Trees.{levels};
ghost use Rattle.c_rows.specs.declared.kind.Kind.TheVariants as kinds;
ghost use Rattle.c_rows.specs.Spells.{Spells};
ghost use Rattle.c_rows.specs.Choice.{stops};
ghost use Rattle.c_rows.specs.Limits.{most_levels};
ghost use Rattle.c_rows.specs.Trees.{IsTreeOf, stands_alone};
ghost use Rattle.c_expr.specs.Answer.{Answers, Reads};

use crate::ParseFault;
use crate::depth::is_too_deep;
use crate::parse::parse;
use crate::see::{MOST_LEVELS, see};
use c_rows::{Class, Kind, Seen};
use c_terms::{Names, Token, Tree};
use std::alloc::Global;

/// Returns the one tree of the kind that spells the whole range as it is seen.
fn parse_seen<'a, 't>(alloc: Global, kind: Kind, seen: &'a [Seen<'t>]) -> Result<Tree, ParseFault>
    requires { IsTrue (stops kind Class.End) }
    ensures found { IfOk result (λ t. Spells kind seen.now t [] × (levels t ≤ most_levels)) }
    ensures only { (t : Tree) → Spells kind seen.now t [] → levels t ≤ most_levels → Answers t result }
    ensures no_tree { result ≡ Err ParseFault.NoTree → (t : Tree) → Spells kind seen.now t [] →
        levels t ≤ most_levels → ⊥ }
    ensures not_deep { result ≡ Err ParseFault.TooDeep → ⊥ }
{
    let found = parse(alloc, MOST_LEVELS, kind, seen)?;
    if !found.rest.is_empty() {
        return Err(ParseFault::NoTree);
    }
    Ok(found.tree)
}

/// Returns the one tree of the kind that spells all the tokens. Doesn't check the depth of brackets.
fn parse_shallow(
    alloc: Global,
    kind: Kind,
    tokens: &[Token],
    names: &Names,
) -> Result<Tree, ParseFault>
    requires { IsTrue (stands_alone kind) }
    ensures found { IfOk result (λ t. IsTreeOf kind names.now tokens.now t) }
    ensures only { (t : Tree) → IsTreeOf kind names.now tokens.now t → Answers t result }
    ensures no_tree { result ≡ Err ParseFault.NoTree → (t : Tree) →
        IsTreeOf kind names.now tokens.now t → ⊥ }
    ensures not_deep { result ≡ Err ParseFault.TooDeep → ⊥ }
{
    let seen = see(alloc, names, tokens)?;
    parse_seen(alloc, kind, seen.as_slice())
}

/// Returns the one tree of the kind that spells the tokens `from..to`. The kind is any but those that are read within a
/// list: Args, TypeArg, Params, Param, InitItem, NamelessBits, EnumName and Enumerator.
///
/// Linear, except that c_rows, at a bracket that begins a type or follows a name, walks ahead to the bracket that closes
/// it. What follows `(` or `,` and may be a type by its first three tokens and by its end is read beforehand, without a
/// tree; results for what is in brackets are kept, so it is read again only for another kind or for more levels. Recurses
/// five calls deep for each of at most 1,000 levels, and six when reading beforehand.
pub fn parse_kind(
    alloc: Global,
    kind: Kind,
    tokens: &[Token],
    names: &Names,
    from: usize,
    to: usize,
) -> Result<Tree, ParseFault>
    requires order { from ≤ to }
    requires inside { to ≤ length tokens.now }
    requires alone { IsTrue (stands_alone kind) }
    ensures reads { Reads kind names.now (slice_range tokens.now from to) result }
{
    let range = &tokens[from..to];
    if is_too_deep(range) {
        return Err(ParseFault::TooDeep);
    }
    parse_shallow(alloc, kind, range, names)
}

/// Returns the one expression that spells the tokens `from..to` (C11 6.5), with the forms of patterns. Costs as much as
/// [`parse_kind`].
pub fn parse_expr(
    alloc: Global,
    tokens: &[Token],
    names: &Names,
    from: usize,
    to: usize,
) -> Result<Tree, ParseFault>
    requires order { from ≤ to }
    requires inside { to ≤ length tokens.now }
    ensures reads { Reads kinds.Expr names.now (slice_range tokens.now from to) result }
{
    parse_kind(alloc, Kind::Expr, tokens, names, from, to)
}

/// Returns the one type name that spells the tokens `from..to` (C11 6.7.7). Costs as much as [`parse_kind`].
pub fn parse_type_name(
    alloc: Global,
    tokens: &[Token],
    names: &Names,
    from: usize,
    to: usize,
) -> Result<Tree, ParseFault>
    requires order { from ≤ to }
    requires inside { to ≤ length tokens.now }
    ensures reads { Reads kinds.TypeName names.now (slice_range tokens.now from to) result }
{
    parse_kind(alloc, Kind::TypeName, tokens, names, from, to)
}

/// Returns the one Specs that spells the tokens `from..to`, the declaration specifiers of C11 6.7. Costs as much as
/// [`parse_kind`].
pub fn parse_specs(
    alloc: Global,
    tokens: &[Token],
    names: &Names,
    from: usize,
    to: usize,
) -> Result<Tree, ParseFault>
    requires order { from ≤ to }
    requires inside { to ≤ length tokens.now }
    ensures reads { Reads kinds.Specs names.now (slice_range tokens.now from to) result }
{
    parse_kind(alloc, Kind::Specs, tokens, names, from, to)
}

/// Returns the one declarator, with or without a name, that spells the tokens `from..to` (C11 6.7.6 and 6.7.7). Costs as
/// much as [`parse_kind`].
pub fn parse_declarator(
    alloc: Global,
    tokens: &[Token],
    names: &Names,
    from: usize,
    to: usize,
) -> Result<Tree, ParseFault>
    requires order { from ≤ to }
    requires inside { to ≤ length tokens.now }
    ensures reads { Reads kinds.Declarator names.now (slice_range tokens.now from to) result }
{
    parse_kind(alloc, Kind::Declarator, tokens, names, from, to)
}

/// Returns the one list of initialisers in braces that spells the tokens `from..to` (C11 6.7.9). Costs as much as
/// [`parse_kind`].
pub fn parse_init(
    alloc: Global,
    tokens: &[Token],
    names: &Names,
    from: usize,
    to: usize,
) -> Result<Tree, ParseFault>
    requires order { from ≤ to }
    requires inside { to ≤ length tokens.now }
    ensures reads { Reads kinds.InitList names.now (slice_range tokens.now from to) result }
{
    parse_kind(alloc, Kind::InitList, tokens, names, from, to)
}
