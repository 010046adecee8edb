// Whether the condition that a rule depends on holds.
ghost use Rattle.std.specs.Prelude.{◌≡◌, eqb};
ghost use Rattle.std.specs.List.{list_any};
ghost use Rattle.c_terms.specs.Same.{same_bytes};
ghost use Rattle.rule_envs.specs.Depends as spec;

use c_terms::{Text, same_text};
use smpl_patch::Dep;

/// Whether the condition that a rule depends on holds for an environment that carries the rules `carried`, if the rules `had`
/// have had a witness and the virtual names `defined` are defined. Recurses once per level of the condition, and takes no
/// memory.
pub fn judge(dep: &Dep, carried: &[u32], had: &[u32], defined: &[Text]) -> bool
    ensures value { result ≡ spec.judge carried.now had.now defined.now dep.now }
{
    match dep {
        Dep::Always => true,
        Dep::Had(rule) => has_rule(*rule, carried),
        Dep::Ever(rule) => has_rule(*rule, had),
        Dep::Defined(name) => is_defined(name, defined),
        Dep::Not(d) => !judge(d.get(), carried, had, defined),
        Dep::Both(d, e) => {
            judge(d.get(), carried, had, defined) && judge(e.get(), carried, had, defined)
        }
        Dep::Either(d, e) => {
            judge(d.get(), carried, had, defined) || judge(e.get(), carried, had, defined)
        }
    }
}

fn has_rule(rule: u32, rules: &[u32]) -> bool
    ensures { result ≡ list_any (λ r. eqb r rule) rules.now }
{
    rules.iter().any(|r| *r == rule)
}

fn is_defined(name: &Text, defined: &[Text]) -> bool
    ensures { result ≡ list_any (λ d. same_bytes d name.now) defined.now }
{
    defined
        .iter()
        .any(|d| same_text(d.as_bytes(), name.as_bytes()))
}
