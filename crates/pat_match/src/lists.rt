// Lists: the members of a file's list, and the runs of them that dots and list variables take.
ghost use Rattle.std.specs.Prelude.{◌≡◌, ℕ, ◌<◌, ◌≤◌, ◌&&◌, ◌++◌, Bool, true, false, IfOk, OnOk, Option, Some, None, List, [], ◌∷◌, drop, length, slice_get};
ghost use Rattle.std.specs.List.{list_all};
ghost use Rattle.c_terms.specs.declared.token.TokenKind.TheVariants as token_kind;
ghost use Rattle.c_terms.specs.declared.label.Label.{Label};
ghost use Rattle.c_terms.specs.declared.list.Member.{Member};
ghost use Rattle.c_terms.specs.declared.tree.Tree.{Tree};
ghost use Rattle.smpl_patch.specs.declared.pattern.VarDecl.{VarDecl};
ghost use Rattle.c_terms.specs.declared.tree.Tree.{out-Tree};
ghost use Rattle.c_terms.specs.Lists.{comma_kids, members, run};
ghost use Rattle.smpl_terms.specs.declared.var.Var.{Var};
ghost use Rattle.smpl_terms.specs.Environments.{Environment};
ghost use Rattle.env_sets.specs.Sets.{set_denotes, set_vars};
ghost use Rattle.smpl_patch.specs.Patterns.{declared_as};
ghost use Rattle.pat_match.specs.Tokens.{id_of, value_is, run_is, stands};
ghost use Rattle.pat_match.specs.Fitting.{leaf_of};
ghost use Rattle.pat_match.specs.Matching.{var_passes, meta_passes};
ghost use Rattle.pat_match.specs.Vars.{comma_vars, leaf_vars, form_vars};
ghost use Rattle.pat_match.specs.Rows.{comma_before, first_is_wild};
ghost use Rattle.pat_match.specs.Rows as row;
ghost use Rattle.pat_match.specs.Runs as spec;

use crate::context::PatternContext;
use crate::sets::both;
use crate::tokens::{first_id, is_bare_token, is_tree, with_stand};
use c_terms::{Label, MetaKind, NoMemory, Token, TokenKind, Tree, comma};
use env_sets::EnvSet;
use smpl_patch::{PatToken, VarDecl, declared_as};
use sqlite_items::Items;
use std::alloc::Global;
use std::marker::Model;

/// A child of a pattern's list: the list's label and children, the number of the child among these, and its tree.
#[derive(Clone, Copy)]
pub struct ListChild<'p> {
    pub label: Label,
    pub forms: &'p [Tree],
    pub i: usize,
    pub form: &'p Tree,
}

/// A member of a list of the file: the comma before it, and its tree. Both are borrowed. Contracts see a `Member`.
#[derive(Drop)]
pub struct ListMember<'a> {
    comma: Option<&'a Token>,
    tree: &'a Tree,
}

impl<'a> Model for ListMember<'a> {
    ghost use Rattle.c_terms.specs.declared.list.Member.{Member};
    ghost use Rattle.std.specs.Coded.{codes};
    ghost use Rattle.c_terms.specs.contracts.tree.Tree as term;
    ghost use Rattle.std.specs.Option.{option_copied};

    ghost Value = { Member };

    ghost coded = { Prim.hlevel (codes, term.the_row.coded) };

    ghost view = { λ m. record { comma = option_copied m.comma; tree = m.tree.now } };
}

impl<'a> ListMember<'a> {
    /// Returns the tree. Takes no memory.
    pub fn tree(&self) -> &Tree
        ensures { result.now ≡ self.now.tree }
    {
        self.tree
    }

    /// Returns the id of the comma before the member. Takes no memory.
    pub fn comma_id(&self) -> Option<u64>
        ensures { result ≡ id_of self.now.comma }
    {
        match self.comma {
            Some(token) => Some(token.id),
            None => None,
        }
    }
}

/// Returns the children that are not commas, each with the comma before it; of two adjacent commas, the later one. Linear in
/// the number of children.
pub fn list_members<'a>(
    alloc: Global,
    children: &'a [Tree],
) -> Result<Vec<ListMember<'a>>, NoMemory>
    ensures { IfOk result (λ found. found.items ≡ members children.now) }
{
    let mut found = Vec::new(alloc);
    let mut before: Option<&'a Token> = None;
    for child in children {
        match comma(child) {
            Some(token) => before = Some(token),
            None => {
                found.push(ListMember {
                    comma: before,
                    tree: child,
                })?;
                before = None;
            }
        }
    }
    Ok(found)
}

fn push_comma(
    alloc: Global,
    children: &mut Items<Tree>,
    member: &ListMember,
) -> Result<(), NoMemory>
    ensures { OnOk result (children.new ≡ children.old ++ comma_kids member.now.comma) }
{
    if let Some(token) = member.comma {
        children.push(Tree::Leaf(token.copy(alloc)?))?;
    }
    Ok(())
}

/// Returns a copy of a run of members, as a list of this label. Linear.
pub fn run_tree(alloc: Global, label: Label, members: &[ListMember]) -> Result<Tree, NoMemory>
    ensures { IfOk result (λ tree. tree ≡ run label members.now) }
{
    let mut children = Items::new(alloc);
    for (i, member) in members.iter().enumerate() {
        if i > 0 {
            push_comma(alloc, &mut children, member)?;
        }
        children.push(member.tree().copy(alloc)?)?;
    }
    Ok(Tree::Branch(label, children))
}

fn is_arguments(label: Label) -> bool
    ensures { result ≡ spec.is_arguments label }
{
    match label {
        Label::Args => true,
        _ => false,
    }
}

fn is_parameters(label: Label) -> bool
    ensures { result ≡ spec.is_parameters label }
{
    match label {
        Label::Params => true,
        _ => false,
    }
}

fn is_list_kind(kind: MetaKind, label: Label) -> bool
    ensures { result ≡ spec.is_list_kind kind label }
{
    match kind {
        MetaKind::ExprList => is_arguments(label),
        MetaKind::Params => is_parameters(label),
        _ => false,
    }
}

fn is_wild_kind(label: Label, kind: TokenKind) -> bool
    ensures { result ≡ spec.is_wild_kind label kind }
{
    match kind {
        TokenKind::Dots => true,
        TokenKind::Meta(kind) => is_list_kind(kind, label),
        _ => false,
    }
}

/// Whether the member of a pattern's list takes any run of members. Takes no memory.
pub fn is_wild(label: Label, form: &Tree) -> bool
    ensures { result ≡ spec.is_wild label (leaf_of (out-Tree form.now)) }
{
    match form {
        Tree::Leaf(token) => is_wild_kind(label, token.kind),
        Tree::Branch(_, _) => false,
    }
}

/// Whether the i-th member of a pattern's list takes any run of members.
pub fn is_wild_at(label: Label, forms: &[Tree], i: usize) -> bool
    requires within { i < length forms.now }
    ensures { result ≡ first_is_wild label (drop i forms.now) }
{
    is_wild(label, &forms[i])
}

/// Returns the environments in which the pattern's comma fits before the run.
fn fit_comma(
    alloc: Global,
    context: &PatternContext<'_>,
    comma: &Token,
    run: &[ListMember],
) -> Result<EnvSet, NoMemory>
    ensures meaning { IfOk result (λ r. (env : Environment) → set_denotes r env
        ≡ spec.comma_fits context.now.decls.now context.now.tokens.now env (Some comma.now) run.now) }
    ensures vars { IfOk result (λ r. (t : Var → Bool)
        → comma_vars context.now.decls.now context.now.tokens.now t (Some comma.now) ≡ true →
        set_vars t r ≡ true) }
{
    let all = EnvSet::all(alloc)?;
    match run {
        [] => with_stand(alloc, all, context, comma, None),
        [first, ..] => with_stand(alloc, all, context, comma, first.comma_id()),
    }
}

/// Returns the environments in which the pattern's comma directly before its i-th child, if there is one, fits before the run.
pub fn fit_comma_before(
    alloc: Global,
    context: &PatternContext<'_>,
    forms: &[Tree],
    i: usize,
    run: &[ListMember],
) -> Result<EnvSet, NoMemory>
    requires within { i ≤ length forms.now }
    ensures meaning { IfOk result (λ r. (env : Environment) → set_denotes r env
        ≡ spec.comma_fits context.now.decls.now context.now.tokens.now env (comma_before forms.now i) run.now) }
    ensures vars { IfOk result (λ r. (t : Var → Bool)
        → list_all (form_vars context.now.decls.now context.now.tokens.now t) forms.now ≡ true →
        set_vars t r ≡ true) }
{
    if i == 0 {
        return EnvSet::all(alloc);
    }
    match comma(&forms[i - 1]) {
        Some(token) => fit_comma(alloc, context, token, run),
        None => EnvSet::all(alloc),
    }
}

/// Whether the pattern's comma directly before its i-th child may be aligned with nothing. Takes no memory.
pub fn is_bare_before(tokens: &[PatToken], forms: &[Tree], i: usize) -> bool
    requires within { i ≤ length forms.now }
    ensures { result ≡ spec.is_bare_comma tokens.now (comma_before forms.now i) }
{
    if i == 0 {
        return true;
    }
    match comma(&forms[i - 1]) {
        Some(token) => is_bare_token(tokens, token.id),
        None => true,
    }
}

/// Returns the environments in which the list variable is the run.
fn fit_value(alloc: Global, decls: &[VarDecl], name: &[u8], run: &Tree) -> Result<EnvSet, NoMemory>
    ensures meaning { IfOk result (λ r. (env : Environment) → set_denotes r env
        ≡ value_is decls.now env (declared_as decls.now name.now) run.now) }
    ensures vars { IfOk result (λ r. (t : Var → Bool)
        → var_passes t (declared_as decls.now name.now) ≡ true →
        set_vars t r ≡ true) }
{
    match declared_as(decls, name) {
        None => Ok(EnvSet::none(alloc)),
        Some(decl) => is_tree(alloc, &decl.var, run),
    }
}

fn fit_wild_value(
    alloc: Global,
    decls: &[VarDecl],
    token: &Token,
    run: &Tree,
) -> Result<EnvSet, NoMemory>
    ensures meaning { IfOk result (λ r. (env : Environment) → set_denotes r env
        ≡ run_is decls.now env token.now.kind token.now run.now) }
    ensures vars { IfOk result (λ r. (t : Var → Bool)
        → meta_passes decls.now t token.now.kind token.now ≡ true →
        set_vars t r ≡ true) }
{
    match token.kind {
        TokenKind::Meta(_) => fit_value(alloc, decls, token.text.as_bytes(), run),
        _ => EnvSet::all(alloc),
    }
}

/// Returns the id of the first token of a member, which includes the comma before it.
fn first_of_member(member: &ListMember) -> Option<u64>
    ensures { result ≡ row.first_of_member member.now }
{
    match member.comma_id() {
        Some(id) => Some(id),
        None => first_id(member.tree()),
    }
}

/// Returns the id of the first token of the members, which include the comma before each.
fn first_of_members(members: &[ListMember]) -> Option<u64>
    ensures { result ≡ row.first_of_members members.now }
{
    for member in members {
        match first_of_member(member) {
            Some(id) => return Some(id),
            None => {}
        }
    }
    None
}

/// Returns the id of the first token of a run of members, which does not include the comma before it. Takes no memory, and a
/// few steps if the first member has a token.
fn first_of_run(run: &[ListMember]) -> Option<u64>
    ensures { result ≡ row.first_of_run run.now }
{
    match run {
        [] => None,
        [first, more @ ..] => match first_id(first.tree()) {
            Some(id) => Some(id),
            None => first_of_members(more),
        },
    }
}

fn is_dots(kind: TokenKind) -> bool
    ensures { result ≡ true → kind ≡ token_kind.Dots }
{
    match kind {
        TokenKind::Dots => true,
        _ => false,
    }
}

/// Whether the token takes every run in every environment, as dots without positions and plus code do. Takes no memory.
fn takes_all(tokens: &[PatToken], token: &Token) -> bool
    ensures { result ≡ true → (decls : List VarDecl) (env : Environment) (whole : Tree)
        (first : Option ℕ) →
        (run_is decls env token.now.kind token.now whole && stands decls tokens.now env token.now first) ≡ true }
{
    is_dots(token.kind) && is_bare_token(tokens, token.id)
}

/// Whether the member of a pattern's list takes every run in every environment. Takes no memory.
fn takes_every(tokens: &[PatToken], form: &Tree) -> bool
    ensures { result ≡ true → (decls : List VarDecl) (env : Environment) (label : Label)
        (run : List Member) → spec.run_fits decls tokens.now env label (leaf_of (out-Tree form.now)) run ≡ true }
{
    match form {
        Tree::Leaf(token) => takes_all(tokens, token),
        Tree::Branch(_, _) => false,
    }
}

/// Returns the environments in which dots take the run: those in which the positions of the dots are at its first token.
fn fit_dots(
    alloc: Global,
    context: &PatternContext<'_>,
    token: &Token,
    run: &[ListMember],
) -> Result<EnvSet, NoMemory>
    requires { token.now.kind ≡ token_kind.Dots }
    ensures meaning { IfOk result (λ r. (label : Label) (env : Environment) → set_denotes r env
        ≡ spec.run_fits context.now.decls.now context.now.tokens.now env label (Some token.now) run.now) }
    ensures vars { IfOk result (λ r. (t : Var → Bool) →
        leaf_vars context.now.decls.now context.now.tokens.now t (Some token.now) ≡ true → set_vars t r ≡ true) }
{
    let all = EnvSet::all(alloc)?;
    let first = first_of_run(run);
    with_stand(alloc, all, context, token, first)
}

/// Returns the environments in which dots or a list variable take the run. Linear in the run for a list variable, which copies
/// it, and a few steps for dots.
fn fit_run(
    alloc: Global,
    context: &PatternContext<'_>,
    label: Label,
    form: &Tree,
    run: &[ListMember],
) -> Result<EnvSet, NoMemory>
    ensures meaning { IfOk result (λ r. (env : Environment) → set_denotes r env
        ≡ spec.run_fits context.now.decls.now context.now.tokens.now env label (leaf_of (out-Tree form.now)) run.now) }
    ensures vars { IfOk result (λ r. (t : Var → Bool) →
        leaf_vars context.now.decls.now context.now.tokens.now t (leaf_of (out-Tree form.now)) ≡ true → set_vars t r ≡ true) }
{
    match form {
        Tree::Branch(_, _) => Ok(EnvSet::none(alloc)),
        Tree::Leaf(token) => {
            if takes_all(context.tokens, token) {
                return EnvSet::all(alloc);
            }
            if is_dots(token.kind) {
                return fit_dots(alloc, context, token, run);
            }
            let whole = run_tree(alloc, label, run)?;
            let here = fit_wild_value(alloc, context.decls, token, &whole)?;
            let first = first_id(&whole);
            with_stand(alloc, here, context, token, first)
        }
    }
}

/// Whether the i-th child of a pattern's list takes every run in every environment, and so does the comma before it. Takes no
/// memory.
pub fn is_free(tokens: &[PatToken], forms: &[Tree], i: usize, form: &Tree) -> bool
    requires within { i ≤ length forms.now }
    ensures comma { result ≡ true → spec.is_bare_comma tokens.now (comma_before forms.now i) ≡ true }
    ensures run { result ≡ true → (decls : List VarDecl) (env : Environment) (label : Label)
        (run : List Member) → spec.run_fits decls tokens.now env label (leaf_of (out-Tree form.now)) run ≡ true }
{
    takes_every(tokens, form) && is_bare_before(tokens, forms, i)
}

/// Returns the environments in which the child, dots or a list variable, takes the run, with the comma before it.
pub fn fit_wild(
    alloc: Global,
    context: &PatternContext<'_>,
    child: &ListChild<'_>,
    run: &[ListMember],
) -> Result<EnvSet, NoMemory>
    requires within { child.now.i ≤ length child.now.forms.now }
    ensures meaning { IfOk result (λ r. (env : Environment) → set_denotes r env
        ≡ (spec.comma_fits context.now.decls.now context.now.tokens.now env
        (comma_before child.now.forms.now child.now.i) run.now
        && spec.run_fits context.now.decls.now context.now.tokens.now env child.now.label
        (leaf_of (out-Tree child.now.form.now)) run.now)) }
    ensures vars { IfOk result (λ r. (t : Var → Bool)
        → list_all (form_vars context.now.decls.now context.now.tokens.now t) child.now.forms.now ≡ true →
        form_vars context.now.decls.now context.now.tokens.now t child.now.form.now ≡ true → set_vars t r ≡ true) }
{
    let before = fit_comma_before(alloc, context, child.forms, child.i, run)?;
    let here = fit_run(alloc, context, child.label, child.form, run)?;
    both(alloc, before, here)
}
