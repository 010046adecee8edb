// The report of rules and of their witnesses.
ghost use Rattle.std.specs.Prelude.{◌≡◌, ◌++◌, ◌||◌, ℕ, List, [], ◌∷◌, map, option_copied, OnOk, IfOk, codes};
ghost use Rattle.std.specs.List.{filter, flat_map, list_any};
ghost use Rattle.c_terms.specs.Same.{same_bytes};
ghost use Rattle.c_terms.specs.Names.{has_name};
ghost use Rattle.smpl_patch.specs.declared.witness.RuleWitness.{RuleWitness};
ghost use Rattle.wit_print.specs.Groups.{AreGroups, shown_groups};
ghost use Rattle.wit_print.specs.Report.{is_reported, rule_name, let_text, let_lines, tree_lines, witness_lines, shown_name, rule_lines, report_of};

use crate::forest::put_tree;
use crate::report::put_value;
use crate::text_buffer::TextBuffer;
use c_terms::NoMemory;
use indexmap::IndexSet;
use outer_io::escaped_name;
use smpl_patch::{Patch, Rule, RuleWitness, VarDecl, Witness};
use smpl_terms::{Env, Value, Var};
use std::alloc::Global;

/// Returns the report of a file with this name. It has a line `file NAME`, in which the name is escaped. For each rule of
/// the patch, by number, it has a line `rule N NAME`, with `-` for a rule without a name, and under it the rule's witnesses
/// in their order, each with a line `at ITEM NODE`, its variables and its forest. Each variable that the rule inherits or
/// that later rules inherit has a line ` let x = v`, in the order of the declarations, unless the witness has no value for
/// it; an inherited variable is written `r.x`. In a forest, a line begins with as many blanks as its depth, counted from 1,
/// and reads `touch NODE ATOM PATH` or `bind NODE x = v`. A value is a term written out, or `#` and the id of a token; a
/// path is a sequence of child numbers separated by dots, or `-`.
///
/// Linear in the report, except for the look-ups of values, each of which is linear in its environment. Recurses once per
/// level of a forest and of a term. Fails only when out of memory. The form is the project's own.
pub fn print(
    alloc: Global,
    patch: &Patch,
    name: &[u8],
    witnesses: &[RuleWitness],
) -> Result<Vec<u8>, NoMemory>
    ensures report { IfOk result (λ text. text.items ≡ report_of patch.now name.now witnesses.now) }
{
    let mut report = TextBuffer::new(alloc);
    report.put(b"file ")?;
    report.put(&escaped_name(alloc, name)?)?;
    report.put(b"\n")?;
    let rules = patch.rules.as_slice();
    let groups = by_rule(alloc, rules.len(), witnesses)?;
    for (n, rule) in rules.iter().enumerate() {
        put_rule(alloc, &mut report, rules, n, rule, &groups[n])?;
    }
    Ok(report.finish())
}

/// Returns the witnesses of each rule.
fn by_rule<'a>(
    alloc: Global,
    count: usize,
    witnesses: &'a [RuleWitness],
) -> Result<Vec<Vec<&'a RuleWitness>>, NoMemory>
    ensures { IfOk result (λ groups. AreGroups count witnesses.now (shown_groups groups.items)) }
{
    let mut groups = Vec::with_capacity(alloc, count)?;
    for _ in 0..count {
        groups.push(Vec::new(alloc))?;
    }
    for w in witnesses {
        put_own(&mut groups, w)?;
    }
    Ok(groups)
}

/// Adds one more witness to the group of its rule, if there is such a rule.
fn put_own<'a>(groups: &mut Vec<Vec<&'a RuleWitness>>, w: &'a RuleWitness) -> Result<(), NoMemory>
    ensures { OnOk result ((count : ℕ) (before : List RuleWitness) → AreGroups count before (shown_groups groups.old.items)
        → AreGroups count (before ++ w.now ∷ []) (shown_groups groups.new.items)) }
{
    let n = w.rule as usize;
    if n < groups.len() {
        groups[n].push(w)?;
    }
    Ok(())
}

fn put_rule(
    alloc: Global,
    report: &mut TextBuffer,
    rules: &[Rule],
    n: usize,
    rule: &Rule,
    own: &[&RuleWitness],
) -> Result<(), NoMemory>
    ensures { OnOk result (report.new ≡ report.old ++ rule_lines rules.now n rule.now (map (λ w. w.now) own.now)) }
{
    report.put_numbered(b"rule ", n as u64)?;
    report.put(b" ")?;
    report.put(shown_name(rule.name.as_bytes()))?;
    report.put(b"\n")?;
    let vars = reported(alloc, rule)?;
    put_witnesses(alloc, report, rules, &vars, own)
}

fn put_witnesses(
    alloc: Global,
    report: &mut TextBuffer,
    rules: &[Rule],
    vars: &[&VarDecl],
    own: &[&RuleWitness],
) -> Result<(), NoMemory>
    ensures { OnOk result (report.new ≡ report.old
        ++ flat_map (witness_lines rules.now (map (λ d. d.now) vars.now)) (map (λ w. w.now) own.now)) }
{
    for w in own {
        put_witness(alloc, report, rules, vars, w)?;
    }
    Ok(())
}

/// Returns the name, or `-` for a rule without a name.
fn shown_name(name: &[u8]) -> &[u8]
    ensures { result.now ≡ shown_name name.now }
{
    if name.is_empty() { b"-" } else { name }
}

/// Returns the variables that the rule inherits and those that later rules inherit.
#[tactic(auto, using(std::proofs::lemmas::List::Elements::filter_more))]
fn reported<'a>(alloc: Global, rule: &'a Rule) -> Result<Vec<&'a VarDecl>, NoMemory>
    ensures { IfOk result (λ vars. map (λ d. d.now) vars.items ≡ filter (is_reported rule.now.exports) rule.now.vars) }
{
    let exports = names_of(alloc, rule.exports.as_slice())?;
    let mut vars = Vec::new(alloc);
    for d in rule.vars.as_slice() {
        if is_reported(&exports, d) {
            vars.push(d)?;
        }
    }
    Ok(vars)
}

fn is_reported(exports: &IndexSet<Vec<u8>>, d: &VarDecl) -> bool
    ensures { result ≡ (d.now.inherited || has_name (map (λ key. key.items) exports.now.keys) d.now.var.name) }
{
    d.inherited || exports.contains(d.var.name.as_bytes())
}

/// Returns the names of the variables, as a set.
#[tactic(auto, using(std::proofs::lemmas::List::Folds::list_any_more))]
fn names_of(alloc: Global, vars: &[Var]) -> Result<IndexSet<Vec<u8>>, NoMemory>
    ensures { IfOk result (λ names. (name : List ℕ) →
        has_name (map (λ key. key.items) names.keys) name ≡ list_any (λ x. same_bytes x.name name) vars.now) }
{
    let mut names = IndexSet::new(alloc);
    for x in vars {
        put_name(alloc, &mut names, x.name.as_bytes())?;
    }
    Ok(names)
}

fn put_name(alloc: Global, names: &mut IndexSet<Vec<u8>>, name: &[u8]) -> Result<(), NoMemory>
    ensures { OnOk result ((other : List ℕ) → has_name (map (λ key. key.items) names.new.keys) other
        ≡ (has_name (map (λ key. key.items) names.old.keys) other || same_bytes name.now other)) }
{
    if !names.contains(name) {
        names.insert(Vec::from_slice(alloc, name)?)?;
    }
    Ok(())
}

fn put_witness(
    alloc: Global,
    report: &mut TextBuffer,
    rules: &[Rule],
    vars: &[&VarDecl],
    w: &RuleWitness,
) -> Result<(), NoMemory>
    ensures { OnOk result (report.new ≡ report.old ++ witness_lines rules.now (map (λ d. d.now) vars.now) w.now) }
{
    report.put_numbered(b"at ", u64::from(w.item))?;
    report.put_numbered(b" ", u64::from(w.node))?;
    report.put(b"\n")?;
    put_lets(report, rules, vars, &w.env)?;
    put_forest(alloc, report, w.forest.as_slice())
}

fn put_lets(
    report: &mut TextBuffer,
    rules: &[Rule],
    vars: &[&VarDecl],
    env: &Env,
) -> Result<(), NoMemory>
    ensures { OnOk result (report.new ≡ report.old ++ let_lines rules.now (map (λ d. d.now) vars.now) env.now) }
{
    for d in vars {
        put_let(report, rules, d, env.get(&d.var))?;
    }
    Ok(())
}

/// Writes the line of a variable, if it has a value.
fn put_let(
    report: &mut TextBuffer,
    rules: &[Rule],
    d: &VarDecl,
    value: Option<&Value>,
) -> Result<(), NoMemory>
    ensures { OnOk result (report.new ≡ report.old ++ let_text rules.now d.now (option_copied value.entry)) }
{
    let Some(value) = value else {
        return Ok(());
    };
    report.put(b" let ")?;
    if d.inherited {
        report.put(rule_name(rules, d.var.rule as usize))?;
        report.put(b".")?;
    }
    report.put(d.var.name.as_bytes())?;
    report.put(b" = ")?;
    put_value(report, value)?;
    report.put(b"\n")
}

/// Returns the name of a rule, or the empty name if there is no such rule.
#[tactic(auto, using(crate::proofs::Lines::name_of_rule, crate::proofs::Lines::name_of_no_rule))]
fn rule_name(rules: &[Rule], n: usize) -> &[u8]
    ensures { result.now ≡ rule_name rules.now n }
{
    if n < rules.len() {
        rules[n].name.as_bytes()
    } else {
        b""
    }
}

fn put_forest(alloc: Global, report: &mut TextBuffer, forest: &[Witness]) -> Result<(), NoMemory>
    ensures { OnOk result (report.new ≡ report.old ++ flat_map (λ f. tree_lines f (codes " ")) forest.now) }
{
    let mut blanks = Vec::from_slice(alloc, b" ")?;
    for tree in forest {
        put_tree(report, tree, &mut blanks)?;
    }
    Ok(())
}
