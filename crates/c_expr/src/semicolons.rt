// Whether branches have a `;`, from the last token backwards.
ghost use Rattle.std.specs.Prelude.{◌≡◌, [], reverse, OnOk};
ghost use Rattle.c_expr.specs.Semicolons.{passed, flag_at};

use c_rows::Group;
use std::alloc::{AllocError, Global};

/// Whether the first branch after a place has a `;` outside all groups, for each number of groups that are open there.
/// The place moves towards the first token.
#[derive(Drop)]
pub struct Semicolons {
    /// The flags, that for the largest number of groups first. For larger numbers there is no `;`.
    flags: Vec<bool>,
}

impl Semicolons {
    /// Returns the state at the end of the tokens. Takes no memory.
    pub fn at_end(alloc: Global) -> Semicolons
        ensures { result.flags.items ≡ [] }
    {
        Semicolons {
            flags: Vec::new(alloc),
        }
    }

    /// Moves the place to before a token of this group. If memory is refused, the state is unspecified.
    pub fn pass(&mut self, group: Group) -> Result<(), AllocError>
        ensures { OnOk result (reverse self.new.flags.items
            ≡ passed group (reverse self.old.flags.items)) }
    {
        match group {
            Group::Plain => {}
            Group::Opening => {
                let _ = self.flags.pop();
            }
            Group::Closing => self.flags.push(false)?,
            Group::Parting => {
                let _ = self.flags.pop();
                self.flags.push(false)?;
            }
            Group::Semicolon => {
                let _ = self.flags.pop();
                self.flags.push(true)?;
            }
        }
        Ok(())
    }

    /// Returns the flag for no open group. Takes no memory.
    pub fn nearest(&self) -> bool
        ensures { result ≡ flag_at (reverse self.now.flags.items) 0 }
    {
        match self.flags.last() {
            None => false,
            Some(flag) => *flag,
        }
    }
}
