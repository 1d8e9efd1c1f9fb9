// The required entries of a min-max node: those of a block leaf from its bits, those of an inner node from its children.
ghost use Rattle.std.specs.Prelude.{◌≡◌, ◌*◌, ◌<◌, length};
ghost use Rattle.mmt_layout.specs.Layout.{count};
ghost use Rattle.mmt_node.specs.Nodes.{node_at, leaf_of, node_from};
ghost use Rattle.mmt_build.specs.Requirements.{Blocks};
ghost use Rattle.mmt_build.specs.Plan.{HasParts, LaterRuled};

use crate::plan::Plan;
use bits_stretch::Summary;
use mmt_layout::layout_of;

impl<'a> Plan<'a> {
    // Computes the layout, once for all nodes.
    pub fn new(words: &'a [u64], n: usize, block: usize) -> Plan<'a>
        requires { Blocks (length words.now) n block }
        ensures { HasParts words.now n block result }
    {
        Plan {
            words,
            n,
            block,
            layout: layout_of(n, block),
        }
    }

    // Returns the number of all nodes.
    #[tactic(auto, using(mmt_layout::proofs::Gates::count_small))]
    pub fn all(&self) -> usize
        ensures { result ≡ count self.now.n self.now.block }
    {
        self.layout.leaves + self.layout.inner
    }

    // Returns the summary of the bits of block b. The last block ends at n.
    #[tactic(auto, using(mmt_layout::proofs::Powers::block_edge), unfolding(mmt_node::specs::Nodes::leaf_of))]
    pub fn leaf_summary(&self, b: usize) -> Summary
        requires { b * self.now.block < self.now.n }
        ensures { result ≡ leaf_of self.now.words.now self.now.n self.now.block b }
    {
        let from = b * self.block;
        let to = self.n.min(from + self.block);
        bits_measure::stretch_summary(self.words, from, to)
    }

    // Returns the required entries of node k: those of a block leaf from its bits, those of an inner node from its children.
    // The nodes after k must have their required entries.
    #[tactic(auto, using(mmt_layout::proofs::Places::leaf_in), unfolding(mmt_node::specs::Nodes::node_from))]
    pub fn wanted(&self, nodes: &[i64], k: usize) -> Summary
        requires { LaterRuled self.now nodes.now k }
        ensures { result ≡ node_from self.now.words.now self.now.n self.now.block (node_at nodes.now) k }
    {
        if k < self.layout.inner {
            return mmt_node::inner_summary(nodes, self.all(), k);
        }
        self.leaf_summary(k - self.layout.inner)
    }
}
