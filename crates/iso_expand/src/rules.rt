// Rules and patches with all forms.
ghost use Rattle.std.specs.Prelude.{◌≡◌, ◌<◌, ◌≤◌, length, IfOk, IfErr};
ghost use Rattle.smpl_patch.specs.Bodies.{body as body_of};
ghost use Rattle.iso_expand.specs.Bodies.{forms_body};
ghost use Rattle.iso_expand.specs.Patches as spec;
ghost use Rattle.iso_expand.specs.Stepped.{NoRoom};

use crate::ExpandFault;
use crate::bodies::expanded_body;
use crate::copies::copy_dep;
use crate::iso_forms::FormsFault;
use smpl_patch::{
    Elem, Iso, PatToken, Patch, Rule, copy_decls, copy_pattern_tokens, copy_texts, copy_vars,
};
use sqlite_items::Items;
use std::alloc::Global;

/// The largest number of forms that the patterns of a rule may have together.
const MOST_FORMS: usize = 10_000;

/// Returns the body with all forms, unless there are too many.
fn body_in_room(
    alloc: Global,
    isos: &[Iso],
    tokens: &[PatToken],
    body: &[Elem],
) -> Result<Items<Elem>, FormsFault>
    ensures body { IfOk result (λ es. spec.IsExpandedBody isos.now tokens.now body.now es) }
    ensures few { IfOk result (λ _. forms_body isos.now tokens.now (body_of body.now) ≤ spec.most_forms) }
    ensures refused { IfErr result (NoRoom spec.most_forms (forms_body isos.now tokens.now (body_of body.now))) }
{
    let mut room = MOST_FORMS;
    expanded_body(alloc, isos, tokens, body, &mut room)
}

fn expanded_rule(alloc: Global, isos: &[Iso], rule: &Rule) -> Result<Rule, FormsFault>
    ensures rule { IfOk result (spec.IsExpandedRule isos.now rule.now) }
    ensures refused { IfErr result (NoRoom spec.most_forms (spec.forms_rule isos.now rule.now)) }
{
    let body = body_in_room(alloc, isos, rule.tokens.as_slice(), rule.body.as_slice())?;
    let name = rule.name.copy(alloc)?;
    let depends = copy_dep(alloc, &rule.depends)?;
    let vars = copy_decls(alloc, rule.vars.as_slice())?;
    let exports = copy_vars(alloc, rule.exports.as_slice())?;
    let tokens = copy_pattern_tokens(alloc, rule.tokens.as_slice())?;
    Ok(Rule {
        name,
        depends,
        mode: rule.mode,
        vars,
        exports,
        body,
        tokens,
    })
}

/// Returns why this rule is refused.
fn fault_of(fault: FormsFault, rule: u32) -> ExpandFault
    ensures { result ≡ spec.fault_at fault rule }
{
    match fault {
        FormsFault::TooMany => ExpandFault::TooManyForms(rule),
        FormsFault::NoMemory => ExpandFault::NoMemory,
    }
}

fn expanded_rules(alloc: Global, isos: &[Iso], rules: &[Rule]) -> Result<Items<Rule>, ExpandFault>
    requires { length rules.now < 4294967296 }
    ensures rules { IfOk result (spec.AreExpanded isos.now rules.now) }
    ensures fault { IfErr result (spec.IsFaultOf isos.now rules.now) }
{
    let mut out = Items::new(alloc);
    for (n, rule) in rules.iter().enumerate() {
        match expanded_rule(alloc, isos, rule) {
            Ok(one) => out.push(one)?,
            Err(fault) => return Err(fault_of(fault, n as u32)),
        }
    }
    Ok(out)
}

/// Returns the patch in which each pattern has the forms of its first form, in their order, the first form first. Nothing else
/// changes.
///
/// - `TooManyForms`: the first rule whose patterns have more than 10,000 forms together.
/// - `NoMemory`: out of memory.
pub fn expand(alloc: Global, patch: Patch, isos: &[Iso]) -> Result<Patch, ExpandFault>
    requires { length patch.rules < 4294967296 }
    ensures patch { IfOk result (spec.IsExpanded isos.now patch) }
    ensures fault { IfErr result (spec.IsFault isos.now patch) }
{
    let rules = expanded_rules(alloc, isos, patch.rules.as_slice())?;
    let virtuals = copy_texts(alloc, patch.virtuals.as_slice())?;
    Ok(Patch { virtuals, rules })
}
