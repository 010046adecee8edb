// All items of a file.
ghost use Rattle.std.specs.Prelude.{◌≡◌, ◌≤◌, IfOk, All, length, slice_get};
ghost use Rattle.c_terms.specs.Names.{listed_names};
ghost use Rattle.c_lexer.specs.Pieces.{most_bytes};
ghost use Rattle.cpp_lines.specs.Items.{StandEndToEnd};
ghost use Rattle.cpp_lines.specs.Shown.{AreShown};
ghost use Rattle.c_file.specs.Fit.{IsFit, item_graph};
ghost use Rattle.c_file.specs.Reads.{Reads, ReadsFrom};

use crate::item::{add_names, read_item};
use crate::token::tokens_in;
use c_lexer::Lexed;
use c_terms::{Names, NoMemory};
use cfg_build::{Graph, build};
use cpp_lines::{Item, ItemSpan, Visible, arms, items, items_stand_end_to_end};
use sqlite_items::at;
use std::alloc::Global;
use std::marker::Model;

/// A text with its items. Contracts see the pieces, the numbers of the shown pieces, and the items.
#[derive(Drop)]
pub struct CFile {
    visible: Visible,
    items: Vec<Item>,
}

impl Model for CFile {
    ghost use Rattle.std.specs.Prelude.{All};
    ghost use Rattle.c_file.specs.File.{FileItems};
    ghost use Rattle.c_file.specs.Fit.{IsFit};
    ghost use Rattle.std.specs.Coded.{codes};
    ghost use Rattle.c_terms.specs.contracts.tree.Tree as tree;

    ghost Value = { FileItems };

    ghost coded = { Prim.hlevel (codes, tree.the_row.coded) };

    ghost invariant = { λ f. All IsFit f.items.items };

    ghost view = { λ f. record { pieces = f.visible.pieces; shown = f.visible.shown; items = f.items.items } };
}

impl CFile {
    /// Returns the text with its pieces. Takes no memory.
    pub fn lexed(&self) -> &Lexed
        ensures lexed { result.now ≡ self.now.pieces }
    {
        self.visible.lexed()
    }

    /// Returns the numbers of the shown pieces. The span of a skipped item is a range of places in this list. Takes no
    /// memory.
    pub fn shown(&self) -> &[u32]
        ensures shown { result.now ≡ self.now.shown }
    {
        self.visible.shown()
    }

    /// Returns the items, in the order of the text. Each item with a tree has a graph. Takes no memory.
    pub fn items(&self) -> &[Item]
        ensures items { result.now ≡ self.now.items }
        ensures fit { All IsFit result.now }
    {
        self.items.as_slice()
    }

    /// Returns the graph of item `i`, or `None` if there is no such item or it has no tree. Fails only when out of memory.
    /// Costs as much as [`cfg_build::build`].
    pub fn graph(&self, alloc: Global, i: usize) -> Result<Option<Graph<'_>>, NoMemory>
        ensures graph { IfOk result (λ graph. graph ≡ item_graph (slice_get self.now.items i)) }
    {
        match at(self.items(), i) {
            Some(Item::Parsed(tree)) => {
                let graph = build(alloc, tree)?;
                Ok(Some(graph))
            }
            Some(Item::Skipped(_, _)) => Ok(None),
            None => Ok(None),
        }
    }
}

/// Returns the text with its items, each read with the names that are known there. Fails only when out of memory.
///
/// Linear except for the parser's reading ahead and for names that are chosen to collide, since names are found by a hash
/// with a fixed seed. Takes memory for the trees, and for the tokens of one item at a time. Recurses as the parser does.
pub fn read_file(alloc: Global, lexed: Lexed) -> Result<CFile, NoMemory>
    ensures pieces { IfOk result (λ file. file.pieces ≡ lexed) }
    ensures shown { IfOk result (λ file. AreShown lexed file.shown) }
    ensures items { IfOk result (λ file. Reads lexed file.items) }
{
    let visible = arms(alloc, lexed)?;
    let spans = items(alloc, &visible)?;
    items_stand_end_to_end();
    few_are_shown(&visible);
    let items = read_items(alloc, &visible, spans.as_slice())?;
    Ok(CFile { visible, items })
}

/// A text shows at most 16,777,216 tokens. Does nothing.
fn few_are_shown(visible: &Visible)
    ensures { length visible.now.shown ≤ most_bytes }
{
    let _shown = visible.shown();
}

fn read_items(alloc: Global, visible: &Visible, spans: &[ItemSpan]) -> Result<Vec<Item>, NoMemory>
    requires stand { StandEndToEnd 0 spans.now (length visible.now.shown) }
    ensures { IfOk result (λ items. ReadsFrom visible.now listed_names spans.now items.items) }
{
    let mut names = Names::listed(alloc)?;
    let mut read = Vec::with_capacity(alloc, spans.len())?;
    for span in spans {
        let tokens = tokens_in(alloc, visible, *span)?;
        let item = read_item(alloc, tokens.as_slice(), &names, *span)?;
        add_names(alloc, &mut names, &item)?;
        read.push(item)?;
    }
    Ok(read)
}
