// The tokens next to a block of plus code in the new text of its edit alone.
ghost use Rattle.std.specs.Prelude.{◌≡◌, ◌==◌, ◌<◌, ◌+◌, IfOk, None, Some, length, slice_get};
ghost use Rattle.std.specs.List.{list_any};
ghost use Rattle.std.specs.Option.{option_copied};
ghost use Rattle.std.specs.List.Sorted.{IsStrictlyIncreasing};
ghost use Rattle.edit_marks.specs.Tidy.Brackets.{with_brackets as wrapped};
ghost use Rattle.edit_marks.specs.Tidy.Neighbours as spec;
ghost use Rattle.edit_marks.specs.Tidy.Searches.{is_at, is_left_here, is_right_here, text_at, found_or, found_left, found_right, IsLeftSearch, IsRightSearch, IsLeftStep, IsRightStep};
ghost use Rattle.edit_marks.specs.declared.tidy.edges.PlacedBlock.{PlacedBlock as Placed};

use crate::file_tokens::FileTokens;
use crate::spot::PlusSpot;
use crate::tidy::brackets::{Outside, first_token, has_loose_word, with_brackets};
use crate::tidy::words::{BlockWord, last_token};
use c_terms::{NoMemory, Text};
use sqlite_items::Items;
use std::alloc::Global;

/// A block of an edit: where it is, how many lines it has, the blanks that begin all of these, and its words.
#[derive(Drop)]
pub struct PlacedBlock {
    pub spot: PlusSpot,
    /// Whether more than one edit may have inserts where it has one.
    pub many: bool,
    pub lines: usize,
    pub lead: usize,
    pub words: Items<BlockWord>,
}

/// Where a search for the token next to a block is: at a side of a token's place.
#[derive(Clone, Copy)]
pub struct Search {
    /// To the left the number of blocks that are before it, to the right the number of the next block.
    pub next: usize,
    pub token: usize,
    pub after: bool,
}

/// What a step of a search leads to.
#[derive(Drop)]
pub enum Step {
    /// The token, if there is one.
    Found(Option<Text>),
    /// The next place.
    Go(Search),
}

/// Returns the words of a block with brackets around the values that need them, where the edit is alone. The blocks are in the
/// order of their places, and the removed tokens are ascending.
pub fn words_at(
    alloc: Global,
    files: &FileTokens<'_>,
    removed: &[u32],
    blocks: &[PlacedBlock],
    number: usize,
) -> Result<Vec<BlockWord>, NoMemory>
    requires within { number < length blocks.now }
    requires rise { IsStrictlyIncreasing removed.now }
    requires in_place { spec.AreInPlace blocks.now }
    requires in_text { (b : Placed) → slice_get blocks.now number ≡ Some b → b.spot.token < length files.now }
    ensures { IfOk result (λ words. words.items ≡ spec.words_at files.now removed.now blocks.now number) }
{
    let around = beside(alloc, files, removed, blocks, number)?;
    let words = blocks[number].words.as_slice();
    let all = with_brackets(alloc, words, &around)?;
    Ok(all)
}

/// Returns the tokens next to a block, unless it has no value that may need brackets.
fn beside(
    alloc: Global,
    files: &FileTokens<'_>,
    removed: &[u32],
    blocks: &[PlacedBlock],
    number: usize,
) -> Result<Outside, NoMemory>
    requires within { number < length blocks.now }
    requires rise { IsStrictlyIncreasing removed.now }
    requires in_place { spec.AreInPlace blocks.now }
    requires in_text { (b : Placed) → slice_get blocks.now number ≡ Some b → b.spot.token < length files.now }
    ensures { IfOk result (λ o. (b : Placed) → slice_get blocks.now number ≡ Some b
        → wrapped o.left o.right b.words ≡ spec.words_at files.now removed.now blocks.now number) }
{
    let words = blocks[number].words.as_slice();
    if has_loose_word(words) {
        let found = outside(alloc, files, removed, blocks, number)?;
        return Ok(found);
    }
    Ok(Outside {
        left: None,
        right: None,
    })
}

/// Returns the tokens next to a block: of those that the edit keeps, and of its other blocks, the nearest on each side. Takes
/// a step for each removed token, and for each block without a token, between the block and these.
fn outside(
    alloc: Global,
    files: &FileTokens<'_>,
    removed: &[u32],
    blocks: &[PlacedBlock],
    number: usize,
) -> Result<Outside, NoMemory>
    requires within { number < length blocks.now }
    requires rise { IsStrictlyIncreasing removed.now }
    requires in_place { spec.AreInPlace blocks.now }
    requires in_text { (b : Placed) → slice_get blocks.now number ≡ Some b → b.spot.token < length files.now }
    ensures left { IfOk result (λ o. o.left ≡ spec.left_of files.now removed.now blocks.now number) }
    ensures right { IfOk result (λ o. o.right ≡ spec.right_of files.now removed.now blocks.now number) }
{
    let spot = blocks[number].spot;
    let before = search_at(number, spot);
    let left = left_token(alloc, files, removed, blocks, before)?;
    let behind = search_at(number + 1, spot);
    let right = right_token(alloc, files, removed, blocks, behind)?;
    Ok(Outside { left, right })
}

fn search_at(next: usize, spot: PlusSpot) -> Search
    ensures next { result.next ≡ next }
    ensures token { result.token ≡ spot.token }
    ensures after { result.after ≡ spot.after }
{
    Search {
        next,
        token: spot.token as usize,
        after: spot.after,
    }
}

/// Whether a token is one of these, which ascend.
pub fn is_removed(removed: &[u32], token: usize) -> bool
    requires { IsStrictlyIncreasing removed.now }
    ensures { result ≡ list_any (λ n. n == token) removed.now }
{
    if token > u32::MAX as usize {
        return false;
    }
    removed.binary_search(&(token as u32)).is_ok()
}

/// Whether the block before those that were looked at is at the place.
fn is_left_here(blocks: &[PlacedBlock], at: Search) -> bool
    ensures { result ≡ is_left_here blocks.now at }
{
    at.next > 0 && is_at(blocks.get(at.next - 1), at)
}

/// Whether the block behind those that were looked at is at the place.
fn is_right_here(blocks: &[PlacedBlock], at: Search) -> bool
    ensures { result ≡ is_right_here blocks.now at }
{
    is_at(blocks.get(at.next), at)
}

fn is_at(block: Option<&PlacedBlock>, at: Search) -> bool
    ensures { result ≡ is_at at (option_copied block.entry) }
{
    match block {
        Some(block) => is_place(block, at),
        None => false,
    }
}

fn is_place(block: &PlacedBlock, at: Search) -> bool
    ensures { result ≡ spec.is_place at.token at.after block.now }
{
    block.spot.token as usize == at.token && block.spot.after == at.after
}

/// Returns the token to the left of a place.
fn left_token(
    alloc: Global,
    files: &FileTokens<'_>,
    removed: &[u32],
    blocks: &[PlacedBlock],
    from: Search,
) -> Result<Option<Text>, NoMemory>
    requires rise { IsStrictlyIncreasing removed.now }
    requires in_place { spec.AreInPlace blocks.now }
    requires from { IsLeftSearch files.now removed.now blocks.now from }
    ensures { IfOk result (λ left. left ≡ found_left files.now removed.now blocks.now from) }
{
    let mut at = from;
    'steps: loop {
        match left_step(alloc, files, removed, blocks, at)? {
            Step::Found(text) => return Ok(text),
            Step::Go(next) => at = next,
        }
    }
}

fn left_step(
    alloc: Global,
    files: &FileTokens<'_>,
    removed: &[u32],
    blocks: &[PlacedBlock],
    at: Search,
) -> Result<Step, NoMemory>
    requires rise { IsStrictlyIncreasing removed.now }
    requires in_place { spec.AreInPlace blocks.now }
    requires at { IsLeftSearch files.now removed.now blocks.now at }
    ensures { IfOk result (IsLeftStep files.now removed.now blocks.now at) }
{
    if is_left_here(blocks, at) {
        let next = at.next - 1;
        let before = Search { next, ..at };
        let words = blocks[next].words.as_slice();
        let step = found_or(alloc, last_token(words), before)?;
        return Ok(step);
    }
    if at.after {
        if !is_removed(removed, at.token) {
            let text = text_at(alloc, files, at.token)?;
            return Ok(Step::Found(text));
        }
        return Ok(Step::Go(Search { after: false, ..at }));
    }
    if at.token == 0 {
        return Ok(Step::Found(None));
    }
    Ok(Step::Go(Search {
        next: at.next,
        token: at.token - 1,
        after: true,
    }))
}

/// Returns the token to the right of a place.
fn right_token(
    alloc: Global,
    files: &FileTokens<'_>,
    removed: &[u32],
    blocks: &[PlacedBlock],
    from: Search,
) -> Result<Option<Text>, NoMemory>
    requires rise { IsStrictlyIncreasing removed.now }
    requires in_place { spec.AreInPlace blocks.now }
    requires from { IsRightSearch files.now removed.now blocks.now from }
    ensures { IfOk result (λ right. right ≡ found_right files.now removed.now blocks.now from) }
{
    let mut at = from;
    'steps: loop {
        match right_step(alloc, files, removed, blocks, at)? {
            Step::Found(text) => return Ok(text),
            Step::Go(next) => at = next,
        }
    }
}

fn right_step(
    alloc: Global,
    files: &FileTokens<'_>,
    removed: &[u32],
    blocks: &[PlacedBlock],
    at: Search,
) -> Result<Step, NoMemory>
    requires rise { IsStrictlyIncreasing removed.now }
    requires in_place { spec.AreInPlace blocks.now }
    requires at { IsRightSearch files.now removed.now blocks.now at }
    ensures { IfOk result (IsRightStep files.now removed.now blocks.now at) }
{
    if is_right_here(blocks, at) {
        let next = at.next;
        let behind = Search {
            next: next + 1,
            ..at
        };
        let none = None;
        let words = blocks[next].words.as_slice();
        let step = found_or(alloc, first_token(words, &none), behind)?;
        return Ok(step);
    }
    if !at.after {
        if !is_removed(removed, at.token) {
            let text = text_at(alloc, files, at.token)?;
            return Ok(Step::Found(text));
        }
        return Ok(Step::Go(Search { after: true, ..at }));
    }
    let count = files.count();
    let left = count - at.token;
    if left == 1 {
        return Ok(Step::Found(None));
    }
    Ok(Step::Go(Search {
        next: at.next,
        token: at.token + 1,
        after: false,
    }))
}

/// Returns a token that was found, or else the next place.
fn found_or(alloc: Global, found: Option<&Text>, next: Search) -> Result<Step, NoMemory>
    ensures { IfOk result (λ step. step ≡ found_or (option_copied found.entry) next) }
{
    match found {
        Some(text) => Ok(Step::Found(Some(text.copy(alloc)?))),
        None => Ok(Step::Go(next)),
    }
}

fn text_at(alloc: Global, files: &FileTokens<'_>, token: usize) -> Result<Option<Text>, NoMemory>
    ensures { IfOk result (λ text. text ≡ text_at files.now token) }
{
    match files.get_at(alloc, token)? {
        Some(file) => Ok(Some(file.text)),
        None => Ok(None),
    }
}
