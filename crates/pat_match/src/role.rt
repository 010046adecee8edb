// The role of a node for the forms that are matched against it.
ghost use Rattle.std.specs.Prelude.{◌≡◌, ◌<◌, ◌&&◌, length, slice_index_or};
ghost use Rattle.c_terms.specs.declared.tree.Tree.{out-Tree};
ghost use Rattle.pat_match.specs.Matching.{is_live_in};
ghost use Rattle.pat_match.specs.Roles as spec;

use crate::context::{PatternContext, PatternForm};
use crate::live::is_live_at;
use c_terms::Tree;
use cfg_build::{NodeKind, NodeLabel};
use smpl_patch::is_statement_kind;

/// The role of a node for the forms that are matched against it.
#[derive(Clone, Copy, Debug, PartialEq, Eq)]
pub struct NodeRole {
    pub kind: NodeKind,
    /// Whether the node is the `{` of a function's own block, which no statement variable matches.
    pub outermost: bool,
}

/// Returns the role of a node of this kind whose statement or block is at this path from the item. Takes no memory.
pub fn role_at(kind: NodeKind, path: &[u32]) -> NodeRole
    ensures { result ≡ spec.role_at kind path.now }
{
    let outermost = match kind {
        NodeKind::OpenBrace => path.len() == 1,
        _ => false,
    };
    NodeRole { kind, outermost }
}

/// Returns the role of a node. For a `{` it reads the path, up to its second number. Takes no memory.
pub fn role_of(node: &NodeLabel) -> NodeRole
    ensures { result ≡ spec.role_of node.now }
{
    let outermost = match node.kind {
        NodeKind::OpenBrace => node.path.has_one_step(),
        _ => false,
    };
    NodeRole {
        kind: node.kind,
        outermost,
    }
}

fn is_statement_variable(form: &Tree) -> bool
    ensures { result ≡ spec.is_statement_variable (out-Tree form.now) }
{
    match form {
        Tree::Leaf(token) => is_statement_kind(token.kind),
        Tree::Branch(_, _) => false,
    }
}

/// Whether the form may be at a node of this role: a statement variable matches no function's own block.
fn may_stand(role: NodeRole, form: &Tree) -> bool
    ensures { result ≡ spec.may_stand role form.now }
{
    !(role.outermost && is_statement_variable(form))
}

/// Whether the form has the first form's sure variables and may be at a node of this role. Takes no memory.
pub fn may_fit(context: &PatternContext<'_>, form: &PatternForm<'_>, role: NodeRole) -> bool
    requires within { form.now.number < length form.now.pattern.now.forms }
    requires form { form.now.tree.now ≡ slice_index_or form.now.pattern.now.forms form.now.number form.now.tree.now }
    ensures { result ≡ (is_live_in context.now.decls.now context.now.tokens.now form.now.pattern.now form.now.tree.now
        && spec.may_stand role form.now.tree.now) }
{
    is_live_at(context, form) && may_stand(role, form.tree)
}
