// The as-built test. It needs no second buffer: a block leaf is compared with its bits, an inner node with its children in the same buffer.
// It goes from the last node down to node 0, so that the children of a node are tested before the node.
ghost use Rattle.std.specs.Prelude.{◌≡◌};
ghost use Rattle.mmt_build.specs.Check.{built_test, AsBuiltPromise};
ghost use Rattle.mmt_build.specs.Plan.{HasRoom};

use crate::plan::Plan;
use mmt_layout::admit;
use mmt_node::node_at;
use row::Told;

// Tests whether every node has its required entries.
#[tactic(auto, using(crate::proofs::Tested::start, crate::proofs::Tested::done))]
fn is_as_built(plan: &Plan, nodes: &[i64]) -> bool
    requires { HasRoom plan.now nodes.now }
    ensures { result ≡ built_test plan.now.words.now plan.now.n nodes.now plan.now.block }
{
    // No `all`: node k is computed only if the nodes after it have passed. With a closure that requires this, the proof did not close.
    for k in (0..plan.all()).rev() {
        if node_at(nodes, k) != plan.wanted(nodes, k) {
            return false;
        }
    }
    true
}

// Tests whether the buffer begins with the entries that a build writes. It answers yes or no, after the tests for refusals 1 to 4.
#[tactic(auto, using(mmt_layout::proofs::Gates::gate_fine, crate::proofs::Tested::built_true, crate::proofs::Tested::built_yes), unfolding(crate::specs::Check::as_built_answer))]
pub fn as_built(words: &[u64], n: usize, nodes: &[i64], block: usize) -> Told
    ensures { AsBuiltPromise words.now n nodes.now block result }
{
    admit(words.len(), n, nodes.len(), block)?;
    let plan = Plan::new(words, n, block);
    Ok(Some(is_as_built(&plan, nodes)))
}
