// Copies.
ghost use Rattle.std.specs.Prelude.{◌≡◌, IfOk};

use crate::{PatToken, Pattern, PlusBlock, PlusLine, VarDecl};
use c_terms::{NoMemory, Text, Token, Tree};
use smpl_terms::Var;
use sqlite_items::Items;
use std::alloc::Global;

fn copy_trees(alloc: Global, trees: &[Tree]) -> Result<Items<Tree>, NoMemory>
    ensures { IfOk result (λ copies. copies ≡ trees.now) }
{
    let mut copies = Vec::with_capacity(alloc, trees.len())?;
    for t in trees {
        copies.push(t.copy(alloc)?)?;
    }
    Ok(Items::from_vec(copies))
}

fn copy_tokens(alloc: Global, tokens: &[Token]) -> Result<Items<Token>, NoMemory>
    ensures { IfOk result (λ copies. copies ≡ tokens.now) }
{
    let mut copies = Vec::with_capacity(alloc, tokens.len())?;
    for t in tokens {
        copies.push(t.copy(alloc)?)?;
    }
    Ok(Items::from_vec(copies))
}

/// Copies texts. Linear. Fails only when out of memory.
pub fn copy_texts(alloc: Global, texts: &[Text]) -> Result<Items<Text>, NoMemory>
    ensures { IfOk result (λ copies. copies ≡ texts.now) }
{
    let mut copies = Vec::with_capacity(alloc, texts.len())?;
    for t in texts {
        copies.push(t.copy(alloc)?)?;
    }
    Ok(Items::from_vec(copies))
}

/// Copies variables. Linear. Fails only when out of memory.
pub fn copy_vars(alloc: Global, vars: &[Var]) -> Result<Items<Var>, NoMemory>
    ensures { IfOk result (λ copies. copies ≡ vars.now) }
{
    let mut copies = Vec::with_capacity(alloc, vars.len())?;
    for v in vars {
        copies.push(v.copy(alloc)?)?;
    }
    Ok(Items::from_vec(copies))
}

/// Copies declarations. Linear. Fails only when out of memory.
pub fn copy_decls(alloc: Global, decls: &[VarDecl]) -> Result<Items<VarDecl>, NoMemory>
    ensures { IfOk result (λ copies. copies ≡ decls.now) }
{
    let mut copies = Vec::with_capacity(alloc, decls.len())?;
    for d in decls {
        copies.push(d.copy(alloc)?)?;
    }
    Ok(Items::from_vec(copies))
}

/// Copies what is known of a pattern's tokens. Linear. Fails only when out of memory.
pub fn copy_pattern_tokens(alloc: Global, tokens: &[PatToken]) -> Result<Items<PatToken>, NoMemory>
    ensures { IfOk result (λ copies. copies ≡ tokens.now) }
{
    let mut copies = Vec::with_capacity(alloc, tokens.len())?;
    for t in tokens {
        copies.push(t.copy(alloc)?)?;
    }
    Ok(Items::from_vec(copies))
}

impl Pattern {
    /// Returns an equal pattern, ids included. Linear. Recurses once per level.
    pub fn copy(&self, alloc: Global) -> Result<Pattern, NoMemory>
        ensures same { IfOk result (λ p. p ≡ self.now) }
    {
        let forms = copy_trees(alloc, self.forms.as_slice())?;
        Ok(Pattern {
            atom: self.atom,
            spot: self.spot,
            forms,
        })
    }
}

impl VarDecl {
    /// Returns an equal declaration. Linear.
    pub fn copy(&self, alloc: Global) -> Result<VarDecl, NoMemory>
        ensures same { IfOk result (λ d. d ≡ self.now) }
    {
        let var = self.var.copy(alloc)?;
        let not_names = copy_texts(alloc, self.not_names.as_slice())?;
        let not_places = copy_vars(alloc, self.not_places.as_slice())?;
        let wanted = self.wanted.copy(alloc)?;
        Ok(VarDecl {
            var,
            kind: self.kind,
            inherited: self.inherited,
            not_names,
            not_places,
            wanted,
        })
    }
}

impl PlusLine {
    /// Returns an equal line. Linear.
    pub fn copy(&self, alloc: Global) -> Result<PlusLine, NoMemory>
        ensures same { IfOk result (λ l. l ≡ self.now) }
    {
        let tokens = copy_tokens(alloc, self.tokens.as_slice())?;
        let gaps = copy_texts(alloc, self.gaps.as_slice())?;
        Ok(PlusLine {
            lead: self.lead,
            tokens,
            gaps,
        })
    }
}

impl PlusBlock {
    /// Returns an equal block. Linear.
    pub fn copy(&self, alloc: Global) -> Result<PlusBlock, NoMemory>
        ensures same { IfOk result (λ b. b ≡ self.now) }
    {
        let mut lines = Vec::with_capacity(alloc, self.lines.len())?;
        for line in self.lines.as_slice() {
            lines.push(line.copy(alloc)?)?;
        }
        Ok(PlusBlock {
            many: self.many,
            lines: Items::from_vec(lines),
        })
    }
}

fn copy_block(alloc: Global, block: &Option<PlusBlock>) -> Result<Option<PlusBlock>, NoMemory>
    ensures { IfOk result (λ b. b ≡ block.now) }
{
    match block {
        None => Ok(None),
        Some(b) => Ok(Some(b.copy(alloc)?)),
    }
}

impl PatToken {
    /// Returns an equal token. Linear.
    pub fn copy(&self, alloc: Global) -> Result<PatToken, NoMemory>
        ensures same { IfOk result (λ p. p ≡ self.now) }
    {
        let positions = copy_vars(alloc, self.positions.as_slice())?;
        let before = copy_block(alloc, &self.before)?;
        let after = copy_block(alloc, &self.after)?;
        Ok(PatToken {
            mark: self.mark,
            positions,
            before,
            after,
        })
    }
}
