// Reads declarations.
ghost use Rattle.std.specs.Prelude.{◌≡◌, ◌++◌, IfOk, OnOk};
ghost use Rattle.smpl_patch.specs.Faults.{first_from};
ghost use Rattle.smpl_meta.specs.Declarations.{items_or_none};
ghost use Rattle.smpl_meta.specs.Decls as spec;
ghost use Rattle.smpl_meta.specs.TypeNames.{with_type_names};

use crate::declaration::declared;
use crate::earlier::Earlier;
use crate::faults::with_items;
use crate::item::Item;
use crate::parts::part_length;
use crate::type_names::TypeNames;
use crate::typed::TypeContext;
use crate::vars::vars_of;
use c_terms::{Names, NoMemory};
use smpl_lexer::PatchToken;
use smpl_patch::{PatchFault, VarDecl, earlier as earlier_fault};
use sqlite_items::Items;
use std::alloc::Global;

/// The items of declarations, and the first fault so far.
#[derive(Drop)]
pub struct Parsed {
    pub items: Items<Item>,
    pub first: Option<PatchFault>,
}

/// The variables of declarations, and the first fault so far.
#[derive(Drop)]
pub struct Declared {
    pub vars: Items<VarDecl>,
    pub first: Option<PatchFault>,
}

fn with_form(first: Option<PatchFault>, part: &[PatchToken]) -> Option<PatchFault>
    ensures { result ≡ first_from first (spec.not_of_form part.now) }
{
    match part {
        [] => first,
        [t, ..] => Some(earlier_fault(first, PatchFault::BadMetavariable(t.at))),
    }
}

fn put_part(
    items: Items<Item>,
    first: Option<PatchFault>,
    part: &[PatchToken],
    more: Option<Items<Item>>,
) -> Result<Parsed, NoMemory>
    ensures items { IfOk result (λ p. p.items ≡ items ++ items_or_none more) }
    ensures first { IfOk result (λ p. p.first ≡ first_from first (spec.form_fault part.now more)) }
{
    match more {
        None => Ok(Parsed {
            items,
            first: with_form(first, part),
        }),
        Some(more) => {
            let mut items = items;
            items.append(more)?;
            Ok(Parsed { items, first })
        }
    }
}

/// Adds the names of `type` metavariables among what a declaration declares.
fn add_types(
    alloc: Global,
    types: &mut TypeNames,
    more: &Option<Items<Item>>,
) -> Result<(), NoMemory>
    ensures types { OnOk result (types.new ≡ with_type_names types.old (items_or_none more.now)) }
{
    match more {
        None => Ok(()),
        Some(items) => types.add(alloc, items.as_slice()),
    }
}

fn parse(
    alloc: Global,
    tokens: &[PatchToken],
    first: Option<PatchFault>,
) -> Result<Parsed, NoMemory>
    ensures parsed { IfOk result (λ p. spec.AreParsed first tokens.now p) }
{
    let mut parsed = Parsed {
        items: Items::new(alloc),
        first,
    };
    let listed = Names::listed(alloc)?;
    let mut types = TypeNames::new(alloc);
    let mut start = 0;
    while start < tokens.len() {
        let rest = &tokens[start..];
        let n = part_length(rest);
        let part = &rest[..n];
        let context = TypeContext {
            listed: &listed,
            types: &types,
        };
        let more = declared(alloc, &context, part)?;
        add_types(alloc, &mut types, &more)?;
        parsed = put_part(parsed.items, parsed.first, part, more)?;
        start += n;
    }
    Ok(parsed)
}

/// Reads declarations, and updates the first fault so far with theirs.
pub fn declare(
    alloc: Global,
    tokens: &[PatchToken],
    rule: u32,
    earlier: &Earlier,
    first: Option<PatchFault>,
) -> Result<Declared, NoMemory>
    ensures declared { IfOk result (λ d. spec.IsDeclaredBy earlier.now.heads rule first tokens.now d) }
{
    let parsed = parse(alloc, tokens, first)?;
    let first = with_items(alloc, parsed.first, earlier, parsed.items.as_slice())?;
    let vars = vars_of(alloc, earlier, rule, parsed.items.as_slice())?;
    Ok(Declared { vars, first })
}
