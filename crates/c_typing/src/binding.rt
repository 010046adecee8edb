// Names and their types.
use c_terms::Text;
use c_types::Ty;

/// A name that a declaration declares, and its type, if that is known.
#[derive(Drop)]
pub struct Binding {
    pub name: Text,
    pub ty: Option<Ty>,
}
