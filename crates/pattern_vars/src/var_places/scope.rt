// What is quantified around the elements of a sequence.
ghost use Rattle.std.specs.Prelude.{◌≡◌, ◌<◌, ◌^◌, ◌+◌, ◌++◌, [], length, take, drop, IfOk, IfSome, OnOk};
ghost use Rattle.std.specs.List.{list_any};
ghost use Rattle.pattern_vars.specs.Reads.{has};
ghost use Rattle.pattern_vars.specs.VarPlaces.Scopes.{joined};

use crate::Key;
use crate::var_places::numbered::Numbered;
use c_terms::NoMemory;
use smpl_terms::{Copied, Shared, SharedList, Var, copied_items};
use sqlite_items::Items;
use std::alloc::Global;
use std::marker::Model;

/// The front of a list of variables that scopes share. Contracts see the variables of the front.
#[derive(Drop)]
pub struct Link {
    /// The shared list.
    vars: Shared<Numbered>,
    /// How many of its variables are in the front.
    count: usize,
}

impl Model for Link {
    ghost use Rattle.std.specs.Prelude.{List, take};
    ghost use Rattle.smpl_terms.specs.declared.var.Var.{Var as Variable};

    ghost Value = { List Variable };

    ghost view = { λ l. take l.count l.vars };
}

impl Link {
    /// Returns the variables, in their order. Takes no memory.
    fn as_slice(&self) -> &[Var]
        ensures { result.now ≡ self.now }
    {
        let vars = self.vars.get().as_slice();
        &vars[..self.count.min(vars.len())]
    }

    /// Whether the variable is in the front. Takes one look-up, linear in the name, and no memory.
    fn has(&self, x: &Key) -> bool
        ensures { result ≡ has self.now x.now.var }
    {
        match self.vars.get().place_of(x) {
            Some(place) => place < self.count,
            None => false,
        }
    }
}

impl Copied for Link {
    fn copied(&self, _alloc: Global) -> Result<Link, NoMemory> {
        let vars = self.vars.share()?;
        Ok(Link {
            vars,
            count: self.count,
        })
    }
}

/// Whether the variable is in one of the links.
fn is_in_some(links: &[Link], x: &Key) -> bool
    ensures { result ≡ list_any (λ link. has link x.now.var) links.now }
{
    links.iter().any(|link| link.has(x))
}

/// Returns the number of variables in the links, if a `usize` can count them. Takes no memory.
fn count_of(links: &[Link]) -> Option<usize>
    ensures { IfSome result (λ count. count ≡ length (joined links.now)) }
{
    let mut count: usize = 0;
    for link in links {
        count = count.checked_add(link.as_slice().len())?;
    }
    Some(count)
}

/// Appends the variables from this number on. Does not look at those before it.
fn put_since(
    alloc: Global,
    vars: &[Var],
    count: usize,
    found: &mut Items<Var>,
) -> Result<(), NoMemory>
    ensures { OnOk result (found.new ≡ found.old ++ drop count vars.now) }
{
    for x in &vars[count.min(vars.len())..] {
        found.push(x.copy(alloc)?)?;
    }
    Ok(())
}

/// The variables that are quantified around an element: those of the sequences around it, from the outermost inward.
/// Contracts see the list.
#[derive(Drop)]
pub struct Scope {
    /// What is quantified around the innermost of the sequences.
    outer: SharedList<Link>,
    /// What is quantified in the innermost sequence.
    last: Link,
}

impl Model for Scope {
    ghost use Rattle.std.specs.Prelude.{List, ◌++◌};
    ghost use Rattle.smpl_terms.specs.declared.var.Var.{Var as Variable};
    ghost use Rattle.pattern_vars.specs.VarPlaces.Scopes.{joined};

    ghost Value = { List Variable };

    ghost view = { λ s. joined s.outer ++ s.last };
}

impl Scope {
    /// Returns the scope without variables.
    pub fn none(alloc: Global) -> Result<Scope, NoMemory>
        ensures { IfOk result (λ scope. scope ≡ []) }
    {
        let vars = Numbered::of(alloc, Vec::new(alloc))?;
        let vars = Shared::of(alloc, vars)?;
        Ok(Scope {
            outer: SharedList::empty(),
            last: Link { vars, count: 0 },
        })
    }

    /// Returns the same variables, shared. Takes no memory.
    pub fn share(&self) -> Result<Scope, NoMemory>
        ensures { IfOk result (λ scope. scope ≡ self.now) }
    {
        let outer = self.outer.share()?;
        let vars = self.last.vars.share()?;
        Ok(Scope {
            outer,
            last: Link {
                vars,
                count: self.last.count,
            },
        })
    }

    /// Whether the variable is in the scope. Takes one copy of it, and a look-up for each sequence around in which something is
    /// quantified.
    pub fn has(&self, alloc: Global, x: &Var) -> Result<bool, NoMemory>
        ensures { IfOk result (λ there. there ≡ has self.now x.now) }
    {
        let key = Key {
            var: x.copy(alloc)?,
        };
        if is_in_some(self.outer.as_slice(), &key) {
            return Ok(true);
        }
        Ok(self.last.has(&key))
    }

    /// Returns the number of variables, if a `usize` can count them. Linear in the number of sequences around in which
    /// something is quantified; takes no memory.
    pub fn len(&self) -> Option<usize>
        ensures { IfSome result (λ count. count ≡ length self.now) }
    {
        let count = count_of(self.outer.as_slice())?;
        count.checked_add(self.last.as_slice().len())
    }

    /// Returns all but the first `count` variables: those that are quantified further inside. Linear in their number, and in
    /// the number of sequences around in which something is quantified.
    pub fn since(&self, alloc: Global, count: usize) -> Result<Items<Var>, NoMemory>
        ensures { IfOk result (λ found. found ≡ drop count self.now) }
    {
        let mut found = Items::new(alloc);
        let mut left = count;
        for link in self.outer.as_slice() {
            let vars = link.as_slice();
            put_since(alloc, vars, left, &mut found)?;
            left = left.saturating_sub(vars.len());
        }
        put_since(alloc, self.last.as_slice(), left, &mut found)?;
        Ok(found)
    }

    /// Returns all links, to which a further one may be added. If the last link is empty, these are the outer ones, shared.
    fn links(&self, alloc: Global) -> Result<SharedList<Link>, NoMemory>
        ensures { IfOk result (λ links. joined links ≡ self.now) }
    {
        if self.last.count == 0 {
            return self.outer.share();
        }
        let mut links = copied_items(alloc, self.outer.as_slice())?;
        links.push(self.last.copied(alloc)?)?;
        SharedList::of(alloc, links)
    }
}

/// The variables that are quantified around a sequence and in it.
#[derive(Drop)]
pub struct SequenceScope {
    /// What is quantified around the sequence.
    outer: SharedList<Link>,
    /// What is quantified in it.
    vars: Shared<Numbered>,
}

impl SequenceScope {
    /// Returns the scope of a sequence: these variables are quantified in it, and those of `scope` around it. Linear in the
    /// variables' names, if no hashes collide, and in the number of sequences around in which something is quantified.
    pub fn of(alloc: Global, scope: &Scope, vars: Vec<Var>) -> Result<SequenceScope, NoMemory>
        ensures outer { IfOk result (λ inside. joined inside.outer ≡ scope.now) }
        ensures vars { IfOk result (λ inside. inside.vars ≡ vars.items) }
        ensures fits { IfOk result (λ inside. length inside.vars < 2 ^ 64) }
    {
        let vars = Numbered::of(alloc, vars)?;
        let vars = Shared::of(alloc, vars)?;
        let outer = scope.links(alloc)?;
        Ok(SequenceScope { outer, vars })
    }

    /// Returns what is quantified around the sequence, and the first `count` of its own variables. Takes no memory.
    pub fn front(&self, count: usize) -> Result<Scope, NoMemory>
        ensures { IfOk result (λ scope. scope
            ≡ joined self.now.outer ++ take count self.now.vars) }
    {
        let outer = self.outer.share()?;
        let vars = self.vars.share()?;
        Ok(Scope {
            outer,
            last: Link { vars, count },
        })
    }
}
