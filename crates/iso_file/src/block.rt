// A block of an isomorphism file.
ghost use Rattle.std.specs.Prelude.{◌≡◌, ◌+◌, ◌<◌, Some, IsSome, IfOk, IfErr, length};
ghost use Rattle.iso_file.specs.Blocks.{header_name};
ghost use Rattle.iso_file.specs.Isos.{IsIso, IsBlockFault, OrNoMemory, first_word};
ghost use Rattle.iso_file.specs.Stepped as stepped;
ghost use Rattle.iso_file.specs.Stepped.{ChecksBlock, Under, Behind, IsFormFault};

use crate::fault::IsoFault;
use crate::header::{concatenated, is_expression_line, is_header, second_at};
use crate::lost::first_lost;
use crate::side::{Parted, part};
use crate::tree::trees_of;
use crate::vars::vars_of;
use c_expr::ranges_have_one_tree;
use c_terms::{NoMemory, Tree};
use smpl_lexer::{PatchToken, is_word};
use smpl_meta::VarTable;
use smpl_patch::{Iso, VarDecl};
use sqlite_items::Items;
use std::alloc::Global;

/// The trees of sides, and the first variable that is lost between them.
#[derive(Drop)]
pub struct CheckedBlock {
    pub trees: Items<Tree>,
    pub lost: Option<u32>,
}

/// Returns the trees of sides under variables and what is lost between them, or `None` if they aren't of the form.
fn check_block(
    alloc: Global,
    vars: &[VarDecl],
    sides: &[Items<PatchToken>],
    both: &[bool],
) -> Result<Option<CheckedBlock>, NoMemory>
    requires { length sides.now ≡ length both.now + 1 }
    ensures { IfOk result (λ j. ChecksBlock vars.now sides.now both.now j) }
{
    let table = VarTable::of(alloc, vars)?;
    match trees_of(alloc, &table, sides)? {
        None => Ok(None),
        Some(trees) => {
            let lost = first_lost(alloc, &table, sides, both)?;
            Ok(Some(CheckedBlock { trees, lost }))
        }
    }
}

/// The contents of a block.
#[derive(Drop)]
pub struct Block {
    pub vars: Items<VarDecl>,
    pub trees: Items<Tree>,
    pub both: Items<bool>,
    pub lost: Option<u32>,
}

/// Returns the contents given by the tokens after `@@`, or `None` if they aren't of the form.
fn under(
    alloc: Global,
    vars: Items<VarDecl>,
    tokens: &[PatchToken],
) -> Result<Option<Block>, NoMemory>
    ensures { IfOk result (λ b. Under vars tokens.now b) }
{
    let Parted { both, sides } = part(alloc, tokens)?;
    if both.is_empty() {
        return Ok(None);
    }
    match check_block(alloc, vars.as_slice(), sides.as_slice(), both.as_slice())? {
        None => Ok(None),
        Some(found) => {
            let CheckedBlock { trees, lost } = found;
            Ok(Some(Block {
                vars,
                trees,
                both,
                lost,
            }))
        }
    }
}

/// Returns the contents given by the lines after `@ name @`, or `None` if they aren't of the form.
fn behind_header(alloc: Global, lines: &[Items<PatchToken>]) -> Result<Option<Block>, NoMemory>
    ensures { IfOk result (λ b. Behind lines.now b) }
{
    ranges_have_one_tree();
    match second_at(lines) {
        None => Ok(None),
        Some(n) => {
            let decls = concatenated(alloc, &lines[..n])?;
            match vars_of(alloc, decls.as_slice())? {
                None => Ok(None),
                Some(vars) => {
                    let tokens = concatenated(alloc, &lines[n + 1..])?;
                    under(alloc, vars, tokens.as_slice())
                }
            }
        }
    }
}

fn made_iso(alloc: Global, header: &[PatchToken], block: Block) -> Result<Iso, NoMemory>
    requires { 1 < length header.now }
    ensures name { IfOk result (λ iso. header_name header.now ≡ Some iso.name) }
    ensures vars { IfOk result (λ iso. iso.vars ≡ block.vars) }
    ensures sides { IfOk result (λ iso. iso.sides ≡ block.trees) }
    ensures both { IfOk result (λ iso. iso.both ≡ block.both) }
{
    let name = header[1].token.text.copy(alloc)?;
    let Block {
        vars,
        trees,
        both,
        ..
    } = block;
    Ok(Iso {
        name,
        vars,
        sides: trees,
        both,
    })
}

/// Whether the lines are `Expression` and `@ name @`, each alone on its line, and more lines.
fn is_begun(lines: &[Items<PatchToken>]) -> bool
    ensures { result ≡ stepped.is_begun lines.now }
{
    match lines {
        [word, header, ..] => is_expression_line(word.as_slice()) && is_header(header.as_slice()),
        _ => false,
    }
}

/// Returns the isomorphism of a block whose first token, at this place, is the word `Expression`, or the block's first
/// fault.
fn read_lines(alloc: Global, at: u32, lines: &[Items<PatchToken>]) -> Result<Iso, IsoFault>
    ensures iso { IfOk result (λ iso. IsIso lines.now iso) }
    ensures fault { IfErr result (λ f. OrNoMemory (IsFormFault lines.now at) f) }
{
    if !is_begun(lines) {
        return Err(IsoFault::BadIso(at));
    }
    match behind_header(alloc, &lines[2..])? {
        None => Err(IsoFault::BadIso(at)),
        Some(block) => match block.lost {
            Some(place) => Err(IsoFault::VariableLost(place)),
            None => Ok(made_iso(alloc, lines[1].as_slice(), block)?),
        },
    }
}

/// Returns the isomorphism of a block, or its first fault.
pub fn read_block(alloc: Global, lines: &[Items<PatchToken>]) -> Result<Iso, IsoFault>
    requires { IsSome (first_word lines.now) }
    ensures iso { IfOk result (λ iso. IsIso lines.now iso) }
    ensures fault { IfErr result (λ f. OrNoMemory (IsBlockFault lines.now) f) }
{
    let line = lines[0].as_slice();
    let first = &line[0];
    if !is_word(first, b"Expression") {
        return Err(IsoFault::NotExpression(first.at));
    }
    read_lines(alloc, first.at, lines)
}
