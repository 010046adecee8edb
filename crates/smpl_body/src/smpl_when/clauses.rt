// What the clauses of each token say.
ghost use Rattle.std.specs.Prelude.{◌≡◌, map, slice_get, IfOk};
ghost use Rattle.std.specs.Option.{option_copied};
ghost use Rattle.smpl_body.specs.SmplWhen.Cutting as spec;

use c_terms::NoMemory;
use smpl_meta::Placed;
use sqlite_items::Items;
use std::alloc::Global;
use std::marker::Model;

/// What the clauses of a token say.
#[derive(Drop)]
pub struct WhenFlags {
    /// `when any`
    pub any: bool,
    /// `when strict`
    pub strict: bool,
    /// The numbers of the pieces of code of its `when !=`, in order.
    pub codes: Items<usize>,
}

/// Returns what a token without clauses has.
fn unsaid(alloc: Global, _p: &Placed) -> WhenFlags
    ensures { result ≡ spec.unsaid _p.now }
{
    WhenFlags {
        any: false,
        strict: false,
        codes: Items::new(alloc),
    }
}

/// What the clauses of each token say, by the token's number.
#[derive(Drop)]
pub struct Clauses {
    said: Vec<WhenFlags>,
}

impl Model for Clauses {
    ghost use Rattle.std.specs.Prelude.{List};
    ghost use Rattle.smpl_body.specs.declared.smpl_when.clauses.WhenFlags.{WhenFlags as What};

    ghost Value = { List What };

    ghost view = { λ clauses. clauses.said.items };
}

impl Clauses {
    ghost use Rattle.smpl_body.specs.SmplWhen.Cutting.{unsaid, say_any, say_strict, say_code, changed};

    /// Returns no clauses for these tokens. Linear.
    pub(crate) fn none(alloc: Global, placed: &[Placed]) -> Result<Clauses, NoMemory>
        ensures { IfOk result (λ c. c ≡ map unsaid placed.now) }
    {
        let mut said = Vec::with_capacity(alloc, placed.len())?;
        for p in placed {
            said.push(unsaid(alloc, p))?;
        }
        Ok(Clauses { said })
    }

    /// Adds `when any` to the token with this number.
    pub(crate) fn with_any(self, host: u64) -> Clauses
        ensures { result ≡ changed say_any host self }
    {
        let Clauses { mut said } = self;
        let at = host as usize;
        if at >= said.len() {
            return Clauses { said };
        }
        let s = &mut said[at];
        s.any = true;
        Clauses { said }
    }

    /// Adds `when strict` to the token with this number.
    pub(crate) fn with_strict(self, host: u64) -> Clauses
        ensures { result ≡ changed say_strict host self }
    {
        let Clauses { mut said } = self;
        let at = host as usize;
        if at >= said.len() {
            return Clauses { said };
        }
        let s = &mut said[at];
        s.strict = true;
        Clauses { said }
    }

    /// Adds the piece of code with the number `code` to the token with the number `host`.
    pub(crate) fn with_code(self, host: u64, code: usize) -> Result<Clauses, NoMemory>
        ensures { IfOk result (λ c. c ≡ changed (say_code code) host self) }
    {
        let Clauses { mut said } = self;
        let at = host as usize;
        if at >= said.len() {
            return Ok(Clauses { said });
        }
        let s = &mut said[at];
        s.codes.push(code)?;
        Ok(Clauses { said })
    }

    /// Returns what the clauses of the token with this number say. Takes no memory.
    pub fn get(&self, id: u64) -> Option<&WhenFlags>
        ensures value { option_copied result ≡ slice_get self.now id }
    {
        self.said.get(id as usize)
    }
}
