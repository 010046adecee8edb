// The layout of the new text.
ghost use Rattle.std.specs.Prelude.{ℕ, ◌≡◌, ◌<◌, ◌≤◌, ◌++◌, IfErr, IfOk, List, OnOk, codes, get_or, length, map, max, nat_eq};
ghost use Rattle.std.specs.Prelude.{if◌then◌else◌};
ghost use Rattle.edit_marks.specs.Inserts.{line_end};
ghost use Rattle.edit_marks.specs.Tokens.{file_tokens};
ghost use Rattle.edit_unparse.specs.declared.tidy.commas.CommaList.{CommaList};
ghost use Rattle.edit_unparse.specs.Tidy.Spots.{brace_number};
ghost use Rattle.edit_unparse.specs.Tidy.Text.{token_pieces};
ghost use Rattle.edit_bodies.specs.Laid as spec;
ghost use Rattle.edit_bodies.specs.Laid.{names_at, nothing_seen};
ghost use Rattle.edit_bodies.specs.Outcomes.{Falls, IsSeen};
ghost use Rattle.edit_bodies.specs.Scenes.{SeesAll, in_code};

use crate::braces::{Braces, Coming};
use crate::calm::calm_lists;
use crate::fault::BodyFault;
use crate::gone::gone_statements;
use crate::scene::Scene;
use crate::see::{SeenBodies, see_body};
use crate::statements::statements_of;
use crate::words::tokens_of_inserts;
use c_file::add_names;
use c_lexer::Lexed;
use c_terms::{Names, NoMemory, Text};
use cpp_lines::Item;
use edit_marks::{BracketList, FileToken, FileTokens, Outline, PatternStatement, TidiedEdits};
use edit_unparse::{Brace, CommaList, Fallen, Layout, Plan, fallen_commas, plan_of, spot_number};
use std::alloc::Global;
use tidy_flags::number_at;

/// Where the inserts of edits stand, and what else the tidied text depends on.
#[derive(Drop)]
pub struct TidyLayout {
    pub plan: Plan,
    pub layout: Layout,
}

/// Returns where the inserts of edits stand, and what else the tidied text depends on. `items` are those of the text.
///
/// `Body`: what stands in the place of some body is no list of statements.
///
/// Costs the parsing of what stands in the place of each body in which something changes. What stands in bodies one in another,
/// of which there may be 1,000, is parsed once for each of them, and searched for what changes: log n steps a token, with n
/// inserts. Compares each body of the items that edits touch with the statements in which the edits behind it matched. Takes
/// n log n steps for n inserts, lists and braces, and else is linear in the text.
pub fn lay_out(
    alloc: Global,
    lexed: &Lexed,
    items: &[Item],
    edits: &TidiedEdits,
) -> Result<TidyLayout, BodyFault>
    ensures laid { IfOk result (spec.IsLaidOut lexed.now items.now edits.now) }
    ensures fault { IfErr result (spec.IsFault lexed.now items.now edits.now) }
{
    let all = edits.list.edits();
    let gone = gone_statements(alloc, all, &edits.outline)?;
    let extents = gone.as_slice();
    let depths = depths_of(alloc, edits)?;
    let numbers = depths.as_slice();
    let plan = plan_of(alloc, lexed, &edits.list, extents, numbers)?;
    let lists = comma_lists(alloc, lexed, &edits.outline)?;
    let signs = lists.as_slice();
    let fallen = fallen_commas(alloc, lexed, &edits.list, &plan, signs)?;
    let bodies = all_seen(alloc, lexed, items, edits, &plan, &fallen)?;
    if let Some(token) = bodies.broken {
        return Err(BodyFault::Body(token));
    }
    let coming = bodies.braces.all();
    let braces = braces_of(alloc, lexed, coming.as_slice())?;
    Ok(TidyLayout {
        plan,
        layout: Layout {
            gone,
            depths,
            lists,
            braces,
        },
    })
}

/// Returns for each edit how deep the deepest statement of its patterns is.
fn depths_of(alloc: Global, edits: &TidiedEdits) -> Result<Vec<u32>, NoMemory>
    ensures { IfOk result (λ depths. spec.AreDepths (length edits.now.list) edits.now.statements.items depths.items) }
{
    let all = edits.list.edits();
    let depths = deepest(alloc, all.len(), edits.statements.as_slice())?;
    Ok(depths)
}

/// Returns for each of so many edits how deep its deepest statement is. `NoMemory`: out of memory, or one is 2^32 deep.
fn deepest(
    alloc: Global,
    count: usize,
    statements: &[(usize, PatternStatement)],
) -> Result<Vec<u32>, NoMemory>
    ensures { IfOk result (λ depths. spec.AreDepths count statements.now depths.items) }
{
    let mut depths = vec![in alloc; 0u32; count]?;
    for statement in statements {
        put_depth(&mut depths, statement.0, &statement.1)?;
    }
    Ok(depths)
}

/// Sets the depth of an edit, if it has one, to that of a statement, if this is more.
fn put_depth(
    depths: &mut Vec<u32>,
    edit: usize,
    statement: &PatternStatement,
) -> Result<(), NoMemory>
    ensures len { length depths.new.items ≡ length depths.old.items }
    ensures depths { OnOk result ((n : ℕ) → n < length depths.old.items → get_or depths.new.items n 0
        ≡ (if nat_eq edit n then max (get_or depths.old.items n 0) (length statement.now.path)
        else get_or depths.old.items n 0)) }
{
    let depth = statement.path.steps().len();
    if depth > 4294967295 {
        return Err(NoMemory);
    }
    if edit < depths.len() {
        depths[edit] = depths[edit].max(depth as u32);
    }
    Ok(())
}

/// Returns what becomes of the bodies.
fn all_seen(
    alloc: Global,
    lexed: &Lexed,
    items: &[Item],
    edits: &TidiedEdits,
    plan: &Plan,
    fallen: &Fallen,
) -> Result<SeenBodies, NoMemory>
    requires { plan.now.pieces.items ≡ token_pieces 0 lexed.now }
    ensures { (lists : List CommaList) → Falls lexed.now edits.now.list plan.now lists fallen.now →
        IfOk result (IsSeen lexed.now items.now edits.now plan.now lists) }
{
    let all = edits.list.edits();
    let inserts = tokens_of_inserts(alloc, all, fallen)?;
    let pairs = edits.statements.as_slice();
    let statements = statements_of(alloc, all.len(), pairs)?;
    let scene = Scene {
        lexed,
        edits,
        plan,
        fallen,
        inserts,
        statements,
    };
    let braces = Braces::none(alloc, plan.count())?;
    let none = SeenBodies {
        braces,
        broken: None,
    };
    let bodies = see_all(alloc, &scene, items, none)?;
    Ok(bodies)
}

/// Returns what has become of all bodies, each with the names that are known at its item.
fn see_all(
    alloc: Global,
    scene: &Scene<'_>,
    items: &[Item],
    none: SeenBodies,
) -> Result<SeenBodies, NoMemory>
    requires { none ≡ in_code nothing_seen }
    ensures { IfOk result (SeesAll scene.now items.now scene.now.edits.now.outline.bodies.items nothing_seen) }
{
    let listed = Names::listed(alloc)?;
    let mut seen = none;
    let mut known = KnownNames {
        names: listed,
        count: 0,
    };
    let bodies = scene.edits.outline.bodies.as_slice();
    for body in bodies {
        known = names_at(alloc, items, known, body.item as usize)?;
        seen = see_body(alloc, scene, &known.names, body, seen)?;
    }
    Ok(seen)
}

/// The names that are known behind so many items.
#[derive(Drop)]
struct KnownNames {
    names: Names,
    count: usize,
}

/// Returns the names that are known at an item. Linear in the items between the two, if it is not before the other.
fn names_at(
    alloc: Global,
    items: &[Item],
    known: KnownNames,
    item: usize,
) -> Result<KnownNames, NoMemory>
    requires { known.names ≡ names_at items.now known.count }
    ensures names { IfOk result (λ more. more.names ≡ names_at items.now item) }
    ensures count { IfOk result (λ more. more.count ≡ item) }
{
    if item < known.count {
        let first = KnownNames {
            names: Names::listed(alloc)?,
            count: 0,
        };
        return with_names(alloc, items, first, item);
    }
    with_names(alloc, items, known, item)
}

fn with_names(
    alloc: Global,
    items: &[Item],
    known: KnownNames,
    item: usize,
) -> Result<KnownNames, NoMemory>
    requires names { known.names ≡ names_at items.now known.count }
    requires before { known.count ≤ item }
    ensures names { IfOk result (λ more. more.names ≡ names_at items.now item) }
    ensures count { IfOk result (λ more. more.count ≡ item) }
{
    let KnownNames { mut names, count } = known;
    let end = item.min(items.len());
    for i in count..end {
        add_names(alloc, &mut names, &items[i])?;
    }
    Ok(KnownNames { names, count: item })
}

/// Returns the braces with their texts, sorted by place.
fn braces_of(alloc: Global, lexed: &Lexed, coming: &[Coming]) -> Result<Vec<Brace>, NoMemory>
    ensures { IfOk result (λ braces. spec.AreBraces (file_tokens lexed.now) coming.now braces.items) }
{
    if coming.is_empty() {
        return Ok(Vec::new(alloc));
    }
    let files = FileTokens::of(alloc, lexed)?;
    let mut braces = all_braces(alloc, &files, coming)?;
    braces.sort_by_key(|it| brace_number(it))?;
    Ok(braces)
}

/// Returns the braces with their texts, in the order in which they came.
fn all_braces(
    alloc: Global,
    files: &FileTokens<'_>,
    coming: &[Coming],
) -> Result<Vec<Brace>, NoMemory>
    ensures { IfOk result (λ braces. braces.items ≡ map (spec.brace_of files.now) coming.now) }
{
    let mut braces = Vec::with_capacity(alloc, coming.len())?;
    for it in coming {
        let brace = brace_of(alloc, files, *it)?;
        braces.push(brace)?;
    }
    Ok(braces)
}

fn brace_of(alloc: Global, files: &FileTokens<'_>, it: Coming) -> Result<Brace, NoMemory>
    ensures { IfOk result (λ brace. brace ≡ spec.brace_of files.now it) }
{
    let text = brace_text(alloc, files, it)?;
    Ok(Brace {
        token: it.spot.token,
        after: it.spot.after,
        inserts: it.spot.inserts,
        text,
    })
}

/// Returns the place of a brace among those of all tokens.
fn brace_number(brace: &Brace) -> u64
    ensures { result ≡ brace_number brace.now }
{
    spot_number(edit_unparse::Spot {
        token: brace.token,
        after: brace.after,
    })
}

/// Returns ` {`, or a `}` on a line of its own that is indented as the statement is.
fn brace_text(alloc: Global, files: &FileTokens<'_>, it: Coming) -> Result<Text, NoMemory>
    ensures { IfOk result (λ text. text ≡ spec.brace_text files.now it) }
{
    if it.opens {
        let text = Text::from_bytes(alloc, b" {")?;
        return Ok(text);
    }
    let owner = files.get(alloc, it.owner)?;
    let text = closing_text(alloc, owner)?;
    Ok(text)
}

fn closing_text(alloc: Global, owner: Option<FileToken>) -> Result<Text, NoMemory>
    ensures { IfOk result (λ text. text ≡ spec.closing_text owner) }
{
    match owner {
        Some(owner) => line_text(alloc, &owner),
        None => Text::from_bytes(alloc, b"}"),
    }
}

/// Returns a `}` on a line that is indented as that of a token.
fn line_text(alloc: Global, token: &FileToken) -> Result<Text, NoMemory>
    ensures { IfOk result (λ text. text ≡ line_end token.now.returns ++ token.now.indent ++ codes "}") }
{
    let mut text = Vec::new(alloc);
    text.extend_from_slice(line_end(token.returns))?;
    text.extend_from_slice(token.indent.as_bytes())?;
    text.extend_from_slice(b"}")?;
    let text = Text::from_bytes(alloc, text.as_slice())?;
    Ok(text)
}

fn line_end(returns: bool) -> &'static [u8]
    ensures { result.now ≡ line_end returns }
{
    if returns { b"\r\n" } else { b"\n" }
}

/// Returns the calm lists by their tokens, sorted by their opening brackets. Takes n log n steps for n lists, and else is
/// linear in the text.
fn comma_lists(alloc: Global, lexed: &Lexed, outline: &Outline) -> Result<Vec<CommaList>, NoMemory>
    ensures { IfOk result (λ lists. spec.AreLists lexed.now outline.now lists.items) }
{
    let leaves = outline.leaves.as_slice();
    let listed = outline.lists.as_slice();
    let all = all_lists(alloc, leaves, listed)?;
    let mut lists = calm_lists(alloc, lexed, all.as_slice())?;
    lists.sort_by_key(|it| it.opening)?;
    Ok(lists)
}

/// Returns the lists by their tokens.
fn all_lists(
    alloc: Global,
    leaves: &[u32],
    lists: &[BracketList],
) -> Result<Vec<CommaList>, NoMemory>
    ensures { IfOk result (λ all. all.items ≡ map (spec.comma_list leaves.now) lists.now) }
{
    let all = lists
        .iter()
        .map(|list| comma_list(leaves, *list))
        .collect(alloc)?;
    Ok(all)
}

fn comma_list(leaves: &[u32], list: BracketList) -> CommaList
    ensures { result ≡ spec.comma_list leaves.now list }
{
    CommaList {
        opening: number_at(leaves, list.opening),
        closing: number_at(leaves, list.closing),
        may_end: list.is_init,
    }
}
