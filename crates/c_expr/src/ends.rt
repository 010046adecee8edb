// Where members end, from the last token backwards.
ghost use Rattle.std.specs.Prelude.{◌≡◌, [], reverse, OnOk};
ghost use Rattle.c_rows.specs.Scan.{turn};
ghost use Rattle.c_expr.specs.Ends.{passed, end_at};

use c_rows::{Class, Turn, turn_at};
use std::alloc::{AllocError, Global};

/// The class of the first `?`, comma or closing bracket after a place, for each number of brackets that are open there.
/// The place moves towards the first token.
#[derive(Drop)]
pub struct Ends {
    /// The classes, that for the largest number of brackets first. For larger numbers the class is the end of the tokens.
    classes: Vec<Class>,
}

impl Ends {
    /// Returns the state at the end of the tokens. Takes no memory.
    pub fn at_end(alloc: Global) -> Ends
        ensures { result.classes.items ≡ [] }
    {
        Ends {
            classes: Vec::new(alloc),
        }
    }

    /// Moves the place to before a token of this class. If memory is refused, the state is unspecified.
    pub fn pass(&mut self, class: Class) -> Result<(), AllocError>
        ensures { OnOk result (reverse self.new.classes.items
            ≡ passed (turn class) class (reverse self.old.classes.items)) }
    {
        match turn_at(class) {
            Turn::Plain => {}
            Turn::Opening => {
                let _ = self.classes.pop();
            }
            Turn::Closing => self.classes.push(class)?,
            Turn::Asking | Turn::Parting => {
                let _ = self.classes.pop();
                self.classes.push(class)?;
            }
        }
        Ok(())
    }

    /// Returns the class for no open bracket. Takes no memory.
    pub fn nearest(&self) -> Class
        ensures { result ≡ end_at (reverse self.now.classes.items) 0 }
    {
        match self.classes.last() {
            None => Class::End,
            Some(class) => *class,
        }
    }
}
