// The words of a block of plus code: its tokens and the values of its metavariables, without the commas beside empty lists.
ghost use Rattle.std.specs.Prelude.{◌≡◌, ◌&&◌, ◌||◌, ◌++◌, None, length, IfOk, OnOk};
ghost use Rattle.std.specs.Option.{option_copied};
ghost use Rattle.edit_marks.specs.Blocks.{term, left_after, AreEven};
ghost use Rattle.edit_marks.specs.Tidy.Words as spec;
ghost use Rattle.edit_marks.specs.Tidy.WordSteps as steps;
ghost use Rattle.edit_marks.specs.Tidy.Layout.{last_word};

use crate::line::{Chunk, chunk_of, copy_of};
use crate::values::term;
use c_terms::{Label, MetaKind, NoMemory, Text, Token, TokenKind, Tree};
use smpl_patch::{PlusBlock, PlusLine, VarDecl};
use smpl_terms::Env;
use std::alloc::Global;

/// How a value of a metavariable must stand so that it holds together.
#[derive(Clone, Copy, Debug, PartialEq, Eq)]
pub enum Hold {
    /// It holds together anywhere.
    Firm,
    /// It needs brackets unless signs close it in.
    Loose,
    /// The same, and an assignment sign may close it in from behind.
    Prefix,
    /// It is `a, b`: only signs of statements close it in.
    Comma,
}

/// A token of plus code, or the value of a metavariable.
#[derive(Drop)]
pub struct BlockWord {
    /// The number of its line in the block.
    pub line: usize,
    /// The blanks before it.
    pub gap: Text,
    /// What stands in its place.
    pub chunk: Chunk,
    pub hold: Hold,
    /// Whether it is a list of a metavariable that has no token.
    pub is_empty_list: bool,
    pub is_comma: bool,
}

/// Returns the words of a block in order, without the comma before each list that has no member, or else the comma behind it.
/// Linear.
pub fn words_of(
    alloc: Global,
    decls: &[VarDecl],
    env: &Env,
    block: &PlusBlock,
) -> Result<Vec<BlockWord>, NoMemory>
    requires { AreEven block.now.lines }
    ensures { IfOk result (λ words. words.items ≡ spec.words_of decls.now env.now block.now.lines) }
{
    let all = all_words(alloc, decls, env, block.lines.as_slice())?;
    without_lists(alloc, &all)
}

fn all_words(
    alloc: Global,
    decls: &[VarDecl],
    env: &Env,
    lines: &[PlusLine],
) -> Result<Vec<BlockWord>, NoMemory>
    requires { AreEven lines.now }
    ensures { IfOk result (λ words. words.items ≡ spec.words_from decls.now env.now 0 lines.now) }
{
    let mut words = Vec::new(alloc);
    for (number, line) in lines.iter().enumerate() {
        put_line_words(alloc, decls, env, number, line, &mut words)?;
    }
    Ok(words)
}

fn put_line_words(
    alloc: Global,
    decls: &[VarDecl],
    env: &Env,
    number: usize,
    line: &PlusLine,
    words: &mut Vec<BlockWord>,
) -> Result<(), NoMemory>
    requires { length line.now.gaps ≡ length line.now.tokens }
    ensures { OnOk result (words.new.items ≡ words.old.items
        ++ spec.words_of_line decls.now env.now number line.now.gaps line.now.tokens) }
{
    let tokens = line.tokens.as_slice();
    let gaps = line.gaps.as_slice();
    for i in 0..tokens.len() {
        let word = word_of(alloc, decls, env, number, &gaps[i], &tokens[i])?;
        words.push(word)?;
    }
    Ok(())
}

fn word_of(
    alloc: Global,
    decls: &[VarDecl],
    env: &Env,
    line: usize,
    gap: &Text,
    token: &Token,
) -> Result<BlockWord, NoMemory>
    ensures { IfOk result (λ word. word ≡ spec.word_of decls.now env.now line gap.now token.now) }
{
    let gap = gap.copy(alloc)?;
    let chunk = chunk_of(alloc, decls, env, token)?;
    let is_empty_list = is_list(token.kind) && !chunk.first.is_some();
    Ok(BlockWord {
        line,
        gap,
        chunk,
        hold: hold_of(decls, env, token),
        is_empty_list,
        is_comma: is_comma(token),
    })
}

fn is_comma(token: &Token) -> bool
    ensures { result ≡ spec.is_comma token.now }
{
    match token.kind {
        TokenKind::Punct => token.text.as_bytes() == b",".as_slice(),
        _ => false,
    }
}

fn is_list(kind: TokenKind) -> bool
    ensures { result ≡ spec.is_list kind }
{
    match kind {
        TokenKind::Meta(MetaKind::ExprList) => true,
        TokenKind::Meta(MetaKind::Params) => true,
        _ => false,
    }
}

/// Returns how the value of a metavariable must stand. Any other token is firm.
fn hold_of(decls: &[VarDecl], env: &Env, token: &Token) -> Hold
    ensures { result ≡ spec.hold_of token.now.kind (term decls.now env.now token.now.text) }
{
    match token.kind {
        TokenKind::Meta(MetaKind::Expr) => hold_of_term(term(decls, env, token.text.as_bytes())),
        _ => Hold::Firm,
    }
}

fn hold_of_term(value: Option<&Tree>) -> Hold
    ensures { result ≡ spec.hold_of_term (option_copied value.entry) }
{
    match value {
        Some(tree) => hold_of_tree(tree),
        None => Hold::Firm,
    }
}

fn hold_of_tree(tree: &Tree) -> Hold
    ensures { result ≡ spec.hold_of_tree tree.now }
{
    match tree {
        Tree::Leaf(_) => Hold::Firm,
        Tree::Branch(label, _) => hold_of_label(*label),
    }
}

fn hold_of_label(label: Label) -> Hold
    ensures { result ≡ spec.hold_of_label label }
{
    match label {
        Label::Strings
        | Label::Paren
        | Label::Call
        | Label::Index
        | Label::Member
        | Label::Arrow
        | Label::PostOp => Hold::Firm,
        Label::Unary | Label::PreOp => Hold::Prefix,
        Label::Comma => Hold::Comma,
        _ => Hold::Loose,
    }
}

/// Returns the words without the commas beside empty lists.
fn without_lists(alloc: Global, words: &[BlockWord]) -> Result<Vec<BlockWord>, NoMemory>
    ensures { IfOk result (λ kept. kept.items ≡ spec.without_lists words.now) }
{
    let mut kept = Vec::new(alloc);
    let mut rest = words;
    let mut closes = false;
    'words: while let [word, after @ ..] = rest {
        let goes = is_comma_before_list(word, after);
        let takes = is_list_before_comma(word, after);
        put_unless(alloc, goes, closes, word, &mut kept)?;
        closes = closes_after(goes, closes, takes);
        rest = without_first(goes, takes, after);
    }
    Ok(kept)
}

/// Whether a word is a comma, and what follows begins with an empty list.
fn is_comma_before_list(word: &BlockWord, after: &[BlockWord]) -> bool
    ensures { result ≡ (word.now.is_comma && steps.begins_with_list after.now) }
{
    word.is_comma && begins_with_list(after)
}

/// Whether a word is an empty list, and what follows begins with a comma.
fn is_list_before_comma(word: &BlockWord, after: &[BlockWord]) -> bool
    ensures { result ≡ (word.now.is_empty_list && steps.begins_with_comma after.now) }
{
    word.is_empty_list && begins_with_comma(after)
}

/// Whether the next word has no gap, after a word that goes, or one that takes the comma behind it.
fn closes_after(goes: bool, closes: bool, takes: bool) -> bool
    ensures { result ≡ steps.closes_after goes closes takes }
{
    if goes { closes } else { takes }
}

/// Whether the first of these words is an empty list.
fn begins_with_list(words: &[BlockWord]) -> bool
    ensures { result ≡ steps.begins_with_list words.now }
{
    match words.first() {
        Some(word) => word.is_empty_list,
        None => false,
    }
}

/// Whether the first of these words is a comma.
fn begins_with_comma(words: &[BlockWord]) -> bool
    ensures { result ≡ steps.begins_with_comma words.now }
{
    match words.first() {
        Some(word) => word.is_comma,
        None => false,
    }
}

/// Adds a copy of a word unless it goes, without its gap if the comma before it went.
fn put_unless(
    alloc: Global,
    goes: bool,
    closes: bool,
    word: &BlockWord,
    kept: &mut Vec<BlockWord>,
) -> Result<(), NoMemory>
    ensures { OnOk result (kept.new.items ≡ kept.old.items ++ steps.kept_word goes closes word.now) }
{
    if goes {
        return Ok(());
    }
    kept.push(closed_word(alloc, closes, word)?)?;
    Ok(())
}

/// Returns a copy of a word, without its gap if the comma before it went.
fn closed_word(alloc: Global, closes: bool, word: &BlockWord) -> Result<BlockWord, NoMemory>
    ensures { IfOk result (λ copy. copy ≡ steps.closed_word closes word.now) }
{
    let gap = if closes {
        Text::from_bytes(alloc, b"")?
    } else {
        word.gap.copy(alloc)?
    };
    Ok(BlockWord {
        line: word.line,
        gap,
        chunk: copy_chunk(alloc, &word.chunk)?,
        hold: word.hold,
        is_empty_list: word.is_empty_list,
        is_comma: word.is_comma,
    })
}

/// Returns a copy of what stands in place of a token.
pub fn copy_chunk(alloc: Global, chunk: &Chunk) -> Result<Chunk, NoMemory>
    ensures { IfOk result (λ copy. copy ≡ chunk.now) }
{
    Ok(Chunk {
        text: chunk.text.copy(alloc)?,
        first: copy_of(alloc, &chunk.first)?,
        last: copy_of(alloc, &chunk.last)?,
    })
}

/// Returns the words behind the first one if that goes too, or is taken.
fn without_first(goes: bool, takes: bool, words: &[BlockWord]) -> &[BlockWord]
    ensures { result.now ≡ steps.without_first (goes || takes) words.now }
{
    match words {
        [_, after @ ..] if goes || takes => after,
        _ => words,
    }
}

/// Returns the last token of words, if they have one.
pub fn last_token(words: &[BlockWord]) -> Option<&Text>
    ensures { option_copied result ≡ last_word None words.now }
{
    let mut last = None;
    for word in words {
        last = later(last, &word.chunk.last);
    }
    last
}

/// Returns the second of two tokens, or else the first.
fn later<'a>(left: Option<&'a Text>, last: &'a Option<Text>) -> Option<&'a Text>
    ensures { option_copied result ≡ left_after (option_copied left.entry) last.now }
{
    match last {
        Some(text) => Some(text),
        None => left,
    }
}
