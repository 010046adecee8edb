// Values and lists that are allocated once and shared by their copies, and the trait of what can be
// copied.
ghost use Rattle.std.specs.Prelude.{◌≡◌, [], IfOk};

use c_terms::NoMemory;
use std::alloc::Global;
use std::marker::Model;
use std::sync::Arc;

/// Data that can be copied.
pub trait Copied {
    /// Returns an equal value, ids included.
    fn copied(&self, alloc: Global) -> Result<Self, NoMemory>
        ensures same { IfOk result (λ r. r ≡ self.now) };
}

/// A value that is allocated once and shared by its copies. Contracts see the value.
#[derive(Drop)]
pub struct Shared<T> {
    inner: Arc<T>,
}

impl<T> Model for Shared<T> {
    ghost Value = { T };

    ghost coded = { T.code };

    ghost view = { λ s. s.inner.value };
}

impl<T: Drop> Shared<T> {
    /// Moves the value to where its copies share it. Allocates one block, for the value and a
    /// reference count.
    pub fn of(alloc: Global, value: T) -> Result<Shared<T>, NoMemory>
        ensures value { IfOk result (λ r. r ≡ value) }
    {
        Ok(Shared {
            inner: Arc::new(alloc, value)?,
        })
    }

    /// Returns the value. Allocates nothing.
    pub fn get(&self) -> &T
        ensures value { result.now ≡ self.now }
    {
        &self.inner
    }

    /// Returns one more owner of the value. Allocates nothing.
    pub fn share(&self) -> Result<Shared<T>, NoMemory>
        ensures same { IfOk result (λ r. r ≡ self.now) }
    {
        Ok(Shared {
            inner: self.inner.clone()?,
        })
    }
}

/// A list that is allocated once and shared by its copies. Contracts see the list.
#[derive(Drop)]
pub struct SharedList<T> {
    items: Option<Arc<Vec<T>>>,
}

impl<T> Model for SharedList<T> {
    ghost use Rattle.std.specs.Prelude.{List};
    ghost use Rattle.std.specs.Coded.{coded_list};
    ghost use Rattle.smpl_terms.specs.Lists.{items_of};

    ghost Value = { List T };

    ghost coded = { coded_list T.code };

    ghost view = { λ s. items_of s.items };
}

impl<T: Drop> SharedList<T> {
    /// Returns the list without items. Allocates nothing.
    pub fn empty() -> SharedList<T>
        ensures items { result ≡ [] }
    {
        SharedList { items: None }
    }

    /// Moves the items to where their copies share them. Allocates a reference count.
    pub fn of(alloc: Global, items: Vec<T>) -> Result<SharedList<T>, NoMemory>
        ensures items { IfOk result (λ r. r ≡ items.items) }
    {
        Ok(SharedList {
            items: Some(Arc::new(alloc, items)?),
        })
    }

    /// Returns the items. Allocates nothing.
    pub fn as_slice(&self) -> &[T]
        ensures items { result.now ≡ self.now }
    {
        match &self.items {
            None => &[],
            Some(items) => items.as_slice(),
        }
    }

    /// Returns one more owner of the list. Allocates nothing.
    pub fn share(&self) -> Result<SharedList<T>, NoMemory>
        ensures same { IfOk result (λ r. r ≡ self.now) }
    {
        let items = match &self.items {
            None => None,
            Some(items) => Some(items.clone()?),
        };
        Ok(SharedList { items })
    }
}

impl<T: Drop + Copied> SharedList<T> {
    /// Returns the items as a `Vec`: moved if this is the only owner, otherwise each copied.
    pub fn into_vec(self, alloc: Global) -> Result<Vec<T>, NoMemory>
        ensures items { IfOk result (λ r. r.items ≡ self) }
    {
        match self.items {
            None => Ok(Vec::new(alloc)),
            Some(items) => match Arc::try_unwrap(items) {
                Ok(items) => Ok(items),
                Err(shared) => copied_items(alloc, shared.as_slice()),
            },
        }
    }
}

impl<T: Drop> Copied for Shared<T> {
    fn copied(&self, _alloc: Global) -> Result<Shared<T>, NoMemory> {
        self.share()
    }
}

impl<T: Drop> Copied for SharedList<T> {
    fn copied(&self, _alloc: Global) -> Result<SharedList<T>, NoMemory> {
        self.share()
    }
}

/// Returns equal items, in their order.
pub fn copied_items<T: Drop + Copied>(alloc: Global, items: &[T]) -> Result<Vec<T>, NoMemory>
    ensures { IfOk result (λ r. r.items ≡ items.now) }
{
    let mut copies = Vec::with_capacity(alloc, items.len())?;
    for item in items {
        copies.push(item.copied(alloc)?)?;
    }
    Ok(copies)
}

impl<A: Drop + Copied, B: Drop + Copied> Copied for (A, B) {
    fn copied(&self, alloc: Global) -> Result<(A, B), NoMemory> {
        Ok((self.0.copied(alloc)?, self.1.copied(alloc)?))
    }
}
