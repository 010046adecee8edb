// What an expression must be for a metavariable.
ghost use Rattle.std.specs.Prelude.{◌≡◌, IfOk};
ghost use Rattle.smpl_patch.specs.Wants as spec;

use crate::VarDecl;
use c_terms::NoMemory;
use c_types::Ty;
use std::alloc::Global;

/// Which expressions a metavariable takes by their form.
#[derive(Clone, Copy, Debug, PartialEq, Eq)]
pub enum NameWanted {
    /// All.
    Any,
    /// `idexpression`: names.
    Name,
    /// `local idexpression`: names that a declaration in their item declares.
    Local,
}

/// Which expressions a metavariable takes by their type. One whose type isn't known is taken only if no type is wanted.
#[derive(Drop)]
pub enum TypeWanted {
    /// All.
    Any,
    /// `struct s *`: those of this type.
    Is(Ty),
    /// `expression *`: those whose type is that many times a pointer or an array.
    Pointer(u32),
}

/// What an expression must be for its metavariable.
#[derive(Drop)]
pub struct Wanted {
    pub name: NameWanted,
    pub ty: TypeWanted,
}

impl Wanted {
    /// Returns what every expression is. Takes no memory.
    pub fn anything() -> Wanted
        ensures value { result ≡ spec.anything }
    {
        Wanted {
            name: NameWanted::Any,
            ty: TypeWanted::Any,
        }
    }

    /// Whether every expression is wanted. Takes no memory.
    pub fn is_anything(&self) -> bool
        ensures value { result ≡ spec.is_anything self.now }
    {
        matches!(self.name, NameWanted::Any) && matches!(self.ty, TypeWanted::Any)
    }

    /// Returns equal wants. Linear.
    pub fn copy(&self, alloc: Global) -> Result<Wanted, NoMemory>
        ensures same { IfOk result (λ wanted. wanted ≡ self.now) }
    {
        let ty = self.ty.copy(alloc)?;
        Ok(Wanted {
            name: self.name,
            ty,
        })
    }

    /// Whether it takes the types of an item to tell which of its expressions are wanted. Takes no memory.
    pub fn asks_types(&self) -> bool
        ensures value { result ≡ spec.asks_types self.now }
    {
        matches!(self.name, NameWanted::Local) || !matches!(self.ty, TypeWanted::Any)
    }
}

impl TypeWanted {
    fn copy(&self, alloc: Global) -> Result<TypeWanted, NoMemory>
        ensures { IfOk result (λ wanted. wanted ≡ self.now) }
    {
        match self {
            TypeWanted::Any => Ok(TypeWanted::Any),
            TypeWanted::Is(ty) => Ok(TypeWanted::Is(ty.copy(alloc)?)),
            TypeWanted::Pointer(times) => Ok(TypeWanted::Pointer(*times)),
        }
    }
}

/// Whether one of the variables asks for the types of the items that its rule looks at. Takes no memory.
pub fn ask_types(decls: &[VarDecl]) -> bool
    ensures value { result ≡ spec.ask_types decls.now }
{
    decls.iter().any(|decl| decl.wanted.asks_types())
}
