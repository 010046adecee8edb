// Braces that come, by the tokens at whose places they stand.
ghost use Rattle.std.specs.Prelude.{◌≡◌, ◌++◌, ◌∷◌, [], get_or, map, filter, IfOk};
ghost use Rattle.edit_bodies.specs.Places.{ArePlaces, at_token};
ghost use Rattle.edit_bodies.specs.Rows.{same_spot};

use c_terms::NoMemory;
use sqlite_items::{Items, at};
use std::alloc::Global;
use std::marker::Model;

/// A place in the new text: a side of a token's place, behind some of the inserts there.
#[derive(Clone, Copy, Debug, PartialEq, Eq)]
pub struct Spot {
    pub token: u32,
    pub after: bool,
    pub inserts: usize,
}

/// A brace that comes.
#[derive(Clone, Copy, Debug)]
pub struct Coming {
    pub spot: Spot,
    pub opens: bool,
    /// The first token of the statement whose body gets it.
    pub owner: u32,
}

/// The braces that come so far. Contracts see their list, in the order in which they came.
#[derive(Drop)]
pub struct Braces {
    all: Vec<Coming>,
    /// For each token its braces.
    places: Vec<Items<Coming>>,
}

impl Model for Braces {
    ghost use Rattle.std.specs.Prelude.{List};
    ghost use Rattle.edit_bodies.specs.declared.braces.Coming.{Coming};
    ghost use Rattle.edit_bodies.specs.Places.{ArePlaces};

    ghost Value = { List Coming };

    ghost view = { λ b. b.all.items };

    ghost invariant = { λ b. ArePlaces b.all.items b.places.items };
}

impl Braces {
    /// Returns no braces for a text with this many tokens.
    pub fn none(alloc: Global, count: usize) -> Result<Braces, NoMemory>
        ensures { IfOk result (λ braces. braces ≡ []) }
    {
        let places = no_places(alloc, count)?;
        Ok(Braces {
            all: Vec::new(alloc),
            places,
        })
    }

    /// Returns the braces with one more. `NoMemory`: out of memory, or the text has no such token.
    pub fn with(self, brace: Coming) -> Result<Braces, NoMemory>
        ensures { IfOk result (λ braces. braces ≡ self ++ brace ∷ []) }
    {
        let Braces {
            mut all,
            mut places,
        } = self;
        let token = brace.spot.token as usize;
        if token >= places.len() {
            return Err(NoMemory);
        }
        all.push(brace)?;
        places[token].push(brace)?;
        Ok(Braces { all, places })
    }

    /// Returns for each brace at a place, in the order in which they came, whether it opens.
    pub fn at(&self, alloc: Global, spot: Spot) -> Result<Vec<bool>, NoMemory>
        ensures { IfOk result (λ found. found.items ≡ map (λ b. b.opens) (filter (λ b. same_spot b.spot spot) self.now)) }
    {
        let own = self.of_token(spot.token);
        let found = opening_at(alloc, own, spot)?;
        Ok(found)
    }

    /// Returns the braces at a token.
    fn of_token(&self, token: u32) -> &[Coming]
        ensures { result.now ≡ at_token self.now token }
    {
        own_braces(&self.places, token)
    }

    /// Returns the braces.
    pub fn all(self) -> Vec<Coming>
        ensures { result.items ≡ self }
    {
        let Braces { all, .. } = self;
        all
    }
}

fn no_places(alloc: Global, count: usize) -> Result<Vec<Items<Coming>>, NoMemory>
    ensures { IfOk result (λ places. ArePlaces [] places.items) }
{
    let mut places = Vec::with_capacity(alloc, count)?;
    for i in 0..count {
        places.push(Items::new(alloc))?;
    }
    Ok(places)
}

fn own_braces(places: &[Items<Coming>], token: u32) -> &[Coming]
    ensures { result.now ≡ get_or places.now token [] }
{
    match at(places, token as usize) {
        Some(own) => own.as_slice(),
        None => &[],
    }
}

fn opening_at(alloc: Global, braces: &[Coming], spot: Spot) -> Result<Vec<bool>, NoMemory>
    ensures { IfOk result (λ found. found.items ≡ map (λ b. b.opens) (filter (λ b. same_spot b.spot spot) braces.now)) }
{
    let found = braces
        .iter()
        .filter(|brace| is_same_spot(brace.spot, spot))
        .map(|brace| brace.opens)
        .collect(alloc)?;
    Ok(found)
}

fn is_same_spot(a: Spot, b: Spot) -> bool
    ensures { result ≡ same_spot a b }
{
    a.token == b.token && a.after == b.after && a.inserts == b.inserts
}
