// One item.
ghost use Rattle.std.specs.Prelude.{◌≡◌, IfOk, OnOk};
ghost use Rattle.c_file.specs.Reads.{IsReading, names_after};

use crate::typedefs::add_declared;
use c_expr::{ParseFault, parse_item};
use c_terms::{Names, NoMemory, Token, Tree};
use cfg_build::count_nodes;
use cpp_lines::{Item, ItemSpan, Why};
use std::alloc::Global;

/// The most nodes that the graph of an item may have.
const MOST_NODES: u64 = 20_000;

/// Reads an item with the names that are known there.
pub(crate) fn read_item(
    alloc: Global,
    tokens: &[Token],
    names: &Names,
    span: ItemSpan,
) -> Result<Item, NoMemory>
    ensures { IfOk result (λ item. IsReading names.now tokens.now span item) }
{
    match parse_item(alloc, tokens, names, 0, tokens.len()) {
        Ok(tree) if count_nodes(&tree) > MOST_NODES => Ok(Item::Skipped(span, Why::TooManyNodes)),
        Ok(tree) => Ok(Item::Parsed(tree)),
        Err(ParseFault::NoTree) => Ok(Item::Skipped(span, Why::NoTree)),
        Err(ParseFault::TooDeep) => Ok(Item::Skipped(span, Why::TooDeep)),
        Err(ParseFault::NoMemory) => Err(NoMemory),
    }
}

/// Adds the names that are known after an item.
pub fn add_names(alloc: Global, names: &mut Names, item: &Item) -> Result<(), NoMemory>
    ensures { OnOk result (names.new ≡ names_after names.old item.now) }
{
    match item {
        Item::Parsed(tree) => add_declared(alloc, names, tree),
        Item::Skipped(_, _) => Ok(()),
    }
}
