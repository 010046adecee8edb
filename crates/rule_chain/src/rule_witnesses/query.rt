// What is looked for in an item.
ghost use Rattle.ctl_formula.specs.Formulas.{plain};
ghost use Rattle.ctl_fixpoint.specs.CtlHolds.Parts.{EachPattern, each_pattern-prop};
ghost use Rattle.ctl_fixpoint.specs.CtlHolds.BoundLaw.{SureStand, sure_stand-prop};
ghost use Rattle.rule_chain.specs.RuleWitnesses.Jobs.{BindsExports};

use ctl_formula::Formula;
use smpl_terms::Var;

/// What is looked for in an item: where a rule's formula holds, and with which values of the exported variables.
#[derive(Clone, Copy)]
pub struct ItemQuery<'a> {
    /// The number of the rule, which its witnesses carry.
    pub number: u32,
    pub f: &'a Formula,
    /// The exported variables, which the formula binds.
    pub exports: &'a [Var],
    pub ghost stand: { EachPattern (SureStand f.now.decls f.now.tokens) (plain f.now) } by { each_pattern-prop
        (SureStand f.now.decls f.now.tokens) (sure_stand-prop f.now.decls f.now.tokens) (plain f.now) },
    pub ghost binds: { BindsExports f.now exports.now },
}
