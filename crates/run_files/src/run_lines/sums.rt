// What a patch finds in a generated text.
ghost use Rattle.std.specs.Prelude.{◌≡◌, ◌++◌, IfOk, OnOk};
ghost use Rattle.wit_print.specs.Report.{shown_name};
ghost use Rattle.run_files.specs.RunLines.Summary as spec;

use c_terms::NoMemory;
use smpl_patch::{Rule, RuleWitness};
use std::alloc::Global;
use wit_print::TextBuffer;

/// Returns the number of witnesses that belong to the rule with this number.
fn count_of(witnesses: &[RuleWitness], number: usize) -> usize
    ensures { result ≡ spec.count_of number witnesses.now }
{
    witnesses
        .iter()
        .filter(|w| w.rule as usize == number)
        .count()
}

/// Returns the name as it is printed: `-` for a rule without a name.
fn shown_name(name: &[u8]) -> &[u8]
    ensures { result.now ≡ shown_name name.now }
{
    if name.is_empty() { b"-" } else { name }
}

fn put_rule(
    line: &mut TextBuffer,
    number: usize,
    rule: &Rule,
    witnesses: &[RuleWitness],
) -> Result<(), NoMemory>
    ensures { OnOk result (line.new ≡ line.old ++ spec.rule_line number rule.now witnesses.now) }
{
    line.put_numbered(b"rule ", number as u64)?;
    line.put(b" ")?;
    line.put(shown_name(rule.name.as_bytes()))?;
    line.put_numbered(b" witnesses ", count_of(witnesses, number) as u64)?;
    line.put(b"\n")
}

/// Returns the summary: a line `rule N NAME witnesses COUNT` for each rule in order of its number, with `-` for a rule without
/// a name, followed by `bytes LENGTH`, the length of the text that the rules leave. Each line ends with a newline.
///
/// Linear in the witnesses for each rule. Fails only when out of memory. The format is the project's own.
pub fn summary(
    alloc: Global,
    rules: &[Rule],
    witnesses: &[RuleWitness],
    length: usize,
) -> Result<Vec<u8>, NoMemory>
    ensures text { IfOk result (λ text. text.items ≡ spec.summary rules.now witnesses.now length) }
{
    let mut line = TextBuffer::new(alloc);
    for (number, rule) in rules.iter().enumerate() {
        put_rule(&mut line, number, rule, witnesses)?;
    }
    line.put_numbered(b"bytes ", length as u64)?;
    line.put(b"\n")?;
    Ok(line.finish())
}
