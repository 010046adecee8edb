// The formulas of rules.
ghost use Rattle.std.specs.Prelude.{◌≡◌, ◌<◌, true, length, slice_get, IfOk};
ghost use Rattle.smpl_patch.specs.Patterns.{sure};
ghost use Rattle.ctl_formula.specs.Plain.{size, fits};
ghost use Rattle.ctl_formula.specs.Bounds.{guarded};
ghost use Rattle.ctl_formula.specs.Tables.{at, plain_of, plains, below};
ghost use Rattle.ctl_formula.specs.Formulas.{plain, IsFormula};

use crate::{Node, Parts};
use c_terms::NoMemory;
use smpl_patch::{PatToken, VarDecl, copy_decls, copy_pattern_tokens};
use sqlite_items::Items;
use std::alloc::Global;
use std::marker::Model;

/// A formula together with the declarations and pattern tokens of its rule. Each variable is bound by the formula under
/// each of its quantifiers. There are at most 100,000 subformulas, each inside at most 4,000 others. Equal subformulas
/// are normally stored once, under one number.
#[derive(Drop)]
pub struct Formula {
    parts: Parts,
    root: usize,
    decls: Items<VarDecl>,
    tokens: Items<PatToken>,
}

impl Model for Formula {
    ghost use Rattle.std.specs.Coded.{codes};
    ghost use Rattle.c_terms.specs.contracts.tree.Tree as tree;
    ghost use Rattle.c_types.specs.contracts.ty.Ty as ty;
    ghost use Rattle.ctl_formula.specs.Formulas.{FormulaOf};

    ghost Value = { FormulaOf };

    ghost coded = { Prim.hlevel (codes, tree.the_row.coded, ty.the_row.coded) };

    ghost use Rattle.ctl_formula.specs.Formulas.{IsFormula};

    ghost view = { λ f. record { nodes = f.parts; root = f.root; decls = f.decls; tokens = f.tokens } };

    ghost invariant = { λ f.
        IsFormula (record { nodes = f.parts; root = f.root; decls = f.decls; tokens = f.tokens }) };
}

impl Formula {
    /// Returns the formula that a part of a table stands for. Allocates nothing.
    pub fn of(parts: Parts, root: usize, decls: Items<VarDecl>, tokens: Items<PatToken>) -> Formula
        requires within { root < length parts }
        requires fits { fits (at (plains parts) root) ≡ true }
        requires guarded { guarded (sure decls tokens) (at (plains parts) root) ≡ true }
        ensures nodes { result.nodes ≡ parts }
        ensures root { result.root ≡ root }
        ensures decls { result.decls ≡ decls }
        ensures tokens { result.tokens ≡ tokens }
    {
        Formula {
            parts,
            root,
            decls,
            tokens,
        }
    }

    /// Returns the number of the node that represents the whole formula.
    pub fn root(&self) -> usize
        ensures root { result ≡ self.now.root }
        ensures within { result < length self.now.nodes }
        ensures sound { IsFormula self.now }
    {
        self.root
    }

    /// Returns the number of nodes in the table.
    pub fn len(&self) -> usize
        ensures len { result ≡ length self.now.nodes }
    {
        self.parts.len()
    }

    /// Returns the node with the given number.
    pub fn node(&self, i: usize) -> &Node
        requires { i < length self.now.nodes }
        ensures node { slice_get self.now.nodes i ≡ Some result.now }
        ensures is { at (plains self.now.nodes) i ≡ plain_of (plains self.now.nodes) result.now }
        ensures kids { below i result.now ≡ true }
    {
        self.parts.node(i)
    }

    /// Returns the declarations of the rule.
    pub fn decls(&self) -> &[VarDecl]
        ensures decls { result.now ≡ self.now.decls }
    {
        self.decls.as_slice()
    }

    /// Returns the pattern tokens of the rule.
    pub fn tokens(&self) -> &[PatToken]
        ensures tokens { result.now ≡ self.now.tokens }
    {
        self.tokens.as_slice()
    }

    /// Returns an equal formula, ids included. Takes time linear in the table.
    pub fn copy(&self, alloc: Global) -> Result<Formula, NoMemory>
        ensures same { IfOk result (λ copied. copied ≡ self.now) }
    {
        let parts = self.parts.copy(alloc)?;
        let decls = copy_decls(alloc, self.decls.as_slice())?;
        let tokens = copy_pattern_tokens(alloc, self.tokens.as_slice())?;
        Ok(Formula::of(parts, self.root, decls, tokens))
    }
}

/// Returns the number of subformulas of the formula; one that occurs several times counts each time. Allocates nothing
/// and takes constant time.
pub fn parts_of(f: &Formula) -> u32
    ensures size { result ≡ size (plain f.now) }
{
    f.parts.size(f.root)
}
