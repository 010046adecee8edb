// The inputs of the table, besides the current element.
ghost use Rattle.std.specs.Prelude.{◌≡◌};
ghost use Rattle.ctl_table.specs.Table as table;
ghost use Rattle.ctl_table.specs.Settings.{setting_at};

use crate::numbers::Blocks;
use pattern_vars::{Ordered, Reader};
use smpl_terms::Var;

/// The inputs of the table, besides the current element.
#[derive(Clone, Copy)]
pub struct Setting<'a, 'b> {
    pub reader: Reader<'a>,
    /// Whether dots go over all walks; otherwise they go over some walk.
    pub forall_walks: bool,
    /// The variables that are neither exported nor inherited.
    pub locals: &'a Ordered,
    /// Those of `locals` that occur only in `when` code.
    pub alone: &'a Ordered,
    /// The atoms of the opening braces, in the order of their hidden variables.
    pub blocks: &'a Blocks,
    /// The hidden variable of the innermost enclosing block, if there is one: dots stay in that block.
    pub around: Option<&'b Var>,
}

impl<'a, 'b> Setting<'a, 'b> {
    /// Returns the same setting inside this block.
    pub fn within<'c>(&self, b: &'c Var) -> Setting<'a, 'c>
        ensures { setting_at result ≡ table.within (setting_at self.now) b.now }
    {
        Setting {
            reader: self.reader,
            forall_walks: self.forall_walks,
            locals: self.locals,
            alone: self.alone,
            blocks: self.blocks,
            around: Some(b),
        }
    }
}
