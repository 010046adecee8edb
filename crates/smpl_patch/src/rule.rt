// Rules and patches.
use crate::{Elem, PatToken, VarDecl};
use c_terms::{Text, Tree};
use smpl_terms::Var;
use sqlite_items::{Boxed, Items};

/// What a rule depends on.
#[derive(Drop)]
pub enum Dep {
    /// Nothing.
    Always,
    /// `r`: the environment carries the rule of this number.
    Had(u32),
    /// `ever r`: the rule of this number has had a witness in the file.
    Ever(u32),
    /// A virtual name.
    Defined(Text),
    /// `!d`
    Not(Boxed<Dep>),
    /// `d && e`
    Both(Boxed<Dep>, Boxed<Dep>),
    /// `d || e`
    Either(Boxed<Dep>, Boxed<Dep>),
}

/// Whether dots range over some walk or over every walk.
#[derive(Clone, Copy, Debug, PartialEq, Eq)]
pub enum Mode {
    Exists,
    Forall,
}

/// A rule of a patch.
#[derive(Drop)]
pub struct Rule {
    /// Empty if the rule has none.
    pub name: Text,
    pub depends: Dep,
    pub mode: Mode,
    /// The variables, in the order of their declarations.
    pub vars: Items<VarDecl>,
    /// The rule's own variables that later rules inherit, in that order.
    pub exports: Items<Var>,
    pub body: Items<Elem>,
    /// The mark, positions and plus code at each token of the patterns.
    pub tokens: Items<PatToken>,
}

/// A semantic patch.
#[derive(Drop)]
pub struct Patch {
    pub virtuals: Items<Text>,
    pub rules: Items<Rule>,
}

/// An isomorphism: expressions that stand for one another. Between two neighboring sides is `=>`, or `<=>` if `both` is
/// true there.
#[derive(Drop)]
pub struct Iso {
    pub name: Text,
    pub vars: Items<VarDecl>,
    pub sides: Items<Tree>,
    pub both: Items<bool>,
}
