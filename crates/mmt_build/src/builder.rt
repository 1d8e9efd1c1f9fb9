// The build: fills the block leaves from their bits, then the inner nodes from their children.
ghost use Rattle.std.specs.Prelude.{◌≡◌, ◌++◌, ◌*◌, length, drop};
ghost use Rattle.row.specs.Writes.{Writes};
ghost use Rattle.row.specs.Answer.{paper_built};
ghost use Rattle.mmt_layout.specs.Layout.{width, leaves, count};
ghost use Rattle.mmt_node.specs.Nodes.{written};
ghost use Rattle.mmt_build.specs.Build.{build_answer, built_nodes};
ghost use Rattle.mmt_build.specs.Filling.{Filled, Leveled};
ghost use Rattle.mmt_build.specs.Plan.{HasRoom, LeavesRuled};

use crate::plan::Plan;
use mmt_layout::{WIDTH, admit};
use mmt_node::put_node;
use row::Refusal;

// Fills the block leaves. `part` is the part of the node buffer after the inner nodes, with exactly three entries per block leaf.
#[tactic(auto, using(mmt_layout::proofs::Powers::leaves_in, crate::proofs::Filled::filled_more))]
fn fill_leaves(plan: &Plan, part: &mut [i64])
    requires { length part.old ≡ width * leaves plan.now.n plan.now.block }
    ensures { Filled plan.now.words.now plan.now.n plan.now.block (leaves plan.now.n plan.now.block) part.new }
{
    for b in 0..part.len() / WIDTH {
        put_node(part, b, plan.leaf_summary(b));
    }
}

// Fills the inner nodes, from the last one down to node 0. Children have greater indices than their parent, so they are filled before it.
#[tactic(auto, using(crate::proofs::Filled::leveled_down))]
fn fill_levels(plan: &Plan, nodes: &mut [i64])
    requires { LeavesRuled plan.now nodes.old }
    ensures { Leveled plan.now.words.now plan.now.n nodes.old plan.now.block 0 nodes.new }
{
    for k in (0..plan.layout.inner).rev() {
        let x = plan.wanted(nodes, k);
        put_node(nodes, k, x);
    }
}

// Fills all nodes: passes the part of the block leaves to `fill_leaves`, then fills the inner nodes.
fn fill_nodes(plan: &Plan, nodes: &mut [i64])
    requires { HasRoom plan.now nodes.old }
    ensures { nodes.new ≡ written plan.now.words.now plan.now.n plan.now.block
        ++ drop (width * count plan.now.n plan.now.block) nodes.old }
{
    let start = WIDTH * plan.layout.inner;
    let end = WIDTH * plan.all();
    fill_leaves(plan, &mut nodes[start..end]);
    fill_levels(plan, nodes);
}

// Writes the entries of all min-max nodes of n bits in blocks of `block` bits, after the tests for refusals 1 to 4.
// On success the entries after the nodes are unchanged. On refusal the whole buffer is unchanged.
#[tactic(auto, using(mmt_layout::proofs::Gates::gate_fine), unfolding(crate::specs::Build::built_nodes))]
pub fn build(words: &[u64], n: usize, nodes: &mut [i64], block: usize) -> Result<(), Refusal>
    ensures { Writes (paper_built result) (build_answer words.now n nodes.old block)
        nodes.new (built_nodes words.now n nodes.old block) }
{
    admit(words.len(), n, nodes.len(), block)?;
    let plan = Plan::new(words, n, block);
    fill_nodes(&plan, nodes);
    Ok(())
}
