// The items in which a rule may find something.
ghost use Rattle.std.specs.Prelude.{◌≡◌, ◌<◌, ◌≤◌, ◌^◌, ℕ, Bool, IfOk, IfSome, OnOk, Some, true, false, length, slice_get};
ghost use Rattle.cfg_build.specs.Graphs.{node_count};
ghost use Rattle.smpl_patch.specs.Wants.{ask_types};
ghost use Rattle.ctl_translate.specs.Answers.{IsFormulaOf};
ghost use Rattle.c_file.specs.ItemGraphs.Made.{IsMade};
ghost use Rattle.c_file.specs.ItemGraphs.Trees.{item_tree};
ghost use Rattle.rule_chain.specs.FileWitnesses.Chosen.{FindsNothing, AreChosen, AreReady};
ghost use Rattle.rule_chain.specs.FileWitnesses.Lacking.{AreNeeded, misses};

use crate::rule_words::words_of;
use c_file::Graphs;
use c_terms::{NoMemory, Text};
use ctl_fixpoint::may_hold;
use ctl_formula::Formula;
use smpl_patch::{Rule, ask_types};
use std::alloc::Global;

/// The most items: a witness carries the number of its item in 32 bits.
const MOST_ITEMS: usize = 4_294_967_296;

/// Whether the item has a tree that lacks one of the words. Makes no graph.
fn lacks_word(words: &[Text], graphs: &Graphs<'_>, i: usize) -> bool
    ensures lacks { result ≡ misses words.now (item_tree (slice_get graphs.now.items i)) }
    ensures few { IfSome (item_tree (slice_get graphs.now.items i)) (λ t. node_count t < 2 ^ 32) }
{
    match graphs.tree(i) {
        None => false,
        Some(tree) => !may_hold(words, tree),
    }
}

/// Whether something may be found in the item: it has a tree, which has each of these words that the formula needs. If so,
/// makes the graph of the item, with types if the rule asks for them, unless it is already made.
fn may_find(
    alloc: Global,
    rule: &Rule,
    f: &Formula,
    words: &[Text],
    graphs: &mut Graphs<'_>,
    i: usize,
) -> Result<bool, NoMemory>
    requires formula { IsFormulaOf rule.now f.now }
    requires needed { AreNeeded words.now f.now }
    requires within { i < length graphs.old.items }
    ensures made { IfOk result (λ may. may ≡ true → IsMade graphs.new (ask_types rule.now.vars) i) }
    ensures nothing { IfOk result (λ may. may ≡ false → FindsNothing rule.now graphs.old.items i) }
    ensures items { graphs.new.items ≡ graphs.old.items }
    ensures kept { (typed : Bool) (k : ℕ) → IsMade graphs.old typed k → IsMade graphs.new typed k }
{
    if lacks_word(words, graphs, i) {
        return Ok(false);
    }
    let typed = ask_types(rule.vars.as_slice());
    graphs.make(alloc, typed, i)?;
    match graphs.get(typed, i) {
        None => Ok(false),
        Some(_) => Ok(true),
    }
}

/// Returns for each item whether the rule may find something in it. Makes the graphs of the items in which it may, unless they
/// are already made.
///
/// More than 2^32 items are refused as if out of memory.
pub fn candidate_items(
    alloc: Global,
    rule: &Rule,
    f: &Formula,
    graphs: &mut Graphs<'_>,
    count: usize,
) -> Result<Vec<bool>, NoMemory>
    requires formula { IsFormulaOf rule.now f.now }
    requires count { count ≡ length graphs.old.items }
    ensures ready { IfOk result (λ chosen. AreReady graphs.new (ask_types rule.now.vars) chosen.items) }
    ensures chosen { IfOk result (λ chosen. AreChosen rule.now graphs.old.items chosen.items) }
    ensures few { OnOk result (count ≤ 2 ^ 32) }
    ensures items { graphs.new.items ≡ graphs.old.items }
    ensures kept { (typed : Bool) (k : ℕ) → IsMade graphs.old typed k → IsMade graphs.new typed k }
{
    if count > MOST_ITEMS {
        return Err(NoMemory);
    }
    let words = words_of(alloc, f)?;
    let mut chosen = Vec::new(alloc);
    for i in 0..count {
        let may = may_find(alloc, rule, f, words.as_slice(), graphs, i)?;
        chosen.push(may)?;
    }
    Ok(chosen)
}
