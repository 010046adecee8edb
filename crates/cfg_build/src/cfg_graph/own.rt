// Which tokens of a label's tree are its node's own.
ghost use Rattle.std.specs.Prelude.{◌≡◌, ◌<◌};
ghost use Rattle.cfg_build.specs.CfgGraph.Own.{is_own};

use crate::cfg_graph::NodeKind;
use c_terms::Label;

/// Whether child `i` of the `n` children of a branch belongs to a node of this kind that names the branch. What belongs
/// to other nodes is excluded: bodies, the statements of a block, and the tail of `do`. Takes no memory.
pub fn is_own(kind: NodeKind, label: Label, n: usize, i: usize) -> bool
    requires in_range { i < n }
    ensures value { result ≡ is_own kind label n i }
{
    match kind {
        NodeKind::OpenBrace => i == 0,
        NodeKind::CloseBrace => i + 1 == n,
        NodeKind::FunHead | NodeKind::Head => !label.is_body(n, i) && !label.is_tail(i),
        NodeKind::DoTail => label.is_tail(i),
        NodeKind::Simple | NodeKind::ExitNode => true,
    }
}
