// One min-max node: reads and writes its three entries in the node buffer, and computes an inner node from its children.
// specs/Nodes.antt defines the entries of every node. The crate mmt_build computes the block leaves from the bits.
// No function here refuses. The caller passes a node that the buffer has room for.
#![tactic(auto)]

ghost use Rattle.std.specs.Prelude.{◌≡◌, ◌+◌, ◌*◌, ◌≤◌, length};
ghost use Rattle.mmt_layout.specs.Layout.{width};
ghost use Rattle.mmt_node.specs.Nodes.{node_at, with_node, inner_of, Joinable};

use bits_stretch::Summary;
use mmt_layout::WIDTH;

// Returns the three entries of node k.
#[tactic(auto, unfolding(crate::specs::Nodes::node_at))]
pub fn node_at(nodes: &[i64], k: usize) -> Summary
    requires { width * (k + 1) ≤ length nodes.now }
    ensures { result ≡ node_at nodes.now k }
{
    let at = WIDTH * k;
    Summary {
        total: nodes[at],
        least: nodes[at + 1],
        greatest: nodes[at + 2],
    }
}

// Writes the summary x to the three entries of node k.
pub fn put_node(nodes: &mut [i64], k: usize, x: Summary)
    requires { width * (k + 1) ≤ length nodes.old }
    ensures { nodes.new ≡ with_node nodes.old k x }
{
    let at = WIDTH * k;
    nodes[at] = x.total;
    nodes[at + 1] = x.least;
    nodes[at + 2] = x.greatest;
}

// Returns the required entries of inner node k: the join of its two children, a copy of an only child, or (0, 0, 0) without children.
// The entries of the nodes after k must be small, so that the sums of a join fit into an i64.
#[tactic(auto, unfolding(crate::specs::Nodes::inner_of, bits_stretch::specs::Summary::none))]
pub fn inner_summary(nodes: &[i64], count: usize, k: usize) -> Summary
    requires { Joinable nodes.now count k }
    ensures { result ≡ inner_of count (node_at nodes.now) k }
{
    let left = 2 * k + 1;
    let right = 2 * k + 2;
    if right < count {
        return node_at(nodes, left).join(node_at(nodes, right));
    }
    if left < count {
        return node_at(nodes, left);
    }
    Summary {
        total: 0,
        least: 0,
        greatest: 0,
    }
}
