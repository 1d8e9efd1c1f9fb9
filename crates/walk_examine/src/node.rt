// A min-max node is examined, and asked whether it qualifies for the remainder r (SCOPE, How a search walks: Scan, examine, qualify).
ghost use Rattle.std.specs.Prelude.{◌≡◌, ◌+◌, ◌*◌, ◌≤◌, length};
ghost use Rattle.mmt_layout.specs.Layout.{width};
ghost use Rattle.mmt_node.specs.Nodes.{node_at};
ghost use Rattle.walk_spec.specs.Walk.{in_range};
ghost use Rattle.walk_examine.specs.Asked.{examined_of, asked_of, Room};

use crate::nodes::Nodes;
use bits_stretch::{Direction, Summary};
use row::Refusal;

// The answer of a node that is asked for a remainder: it qualifies (`Here`); it is passed, with the remainder after it (`Past`);
// or it does not exist (`Absent`).
#[derive(Clone, Copy, Debug, PartialEq, Eq)]
pub enum Asked {
    Here,
    Past(i64),
    Absent,
}

// The bounds of an entry that is in range. No row has more than 2^32 bits, so no value of a summary is beyond them.
const LOWEST: i64 = -4294967296;

const HIGHEST: i64 = 4294967296;

// Tests whether an entry is in range: at least -2^32 and at most 2^32.
#[tactic(auto, unfolding(walk_spec::specs::Walk::in_range))]
fn near_zero(x: i64) -> bool
    ensures { result ≡ in_range x }
{
    LOWEST <= x && x <= HIGHEST
}

// Reads the three entries of node k and tests each of them for range, whether it is used or not. One out of range is refusal 8.
// No other code of a walk reads the node buffer.
#[tactic(auto, unfolding(crate::specs::Asked::examined_of, walk_spec::specs::Walk::fits))]
pub fn examine(nodes: &[i64], k: usize) -> Result<Summary, Refusal>
    requires { width * (k + 1) ≤ length nodes.now }
    ensures { result ≡ examined_of (node_at nodes.now k) }
{
    let x = mmt_node::node_at(nodes, k);
    if near_zero(x.total) && near_zero(x.least) && near_zero(x.greatest) {
        return Ok(x);
    }
    Err(Refusal::NodesMisfit)
}

impl<'a> Nodes<'a> {
    // Asks node k for the remainder r.
    #[tactic(auto, using(crate::proofs::Asks::asked_absent, crate::proofs::Asks::asked_misfit, crate::proofs::Asks::asked_here, crate::proofs::Asks::asked_past, crate::proofs::Asks::total_room, crate::proofs::Asks::past_room))]
    pub fn ask<D: Direction>(&self, k: usize, r: i64) -> Result<Asked, Refusal>
        requires { Room 0 r }
        ensures { result ≡ asked_of D.way self.now.all self.now.buffer.now k r }
    {
        if self.all <= k {
            return Ok(Asked::Absent);
        }
        let x = examine(self.buffer, k)?;
        if D::holds(x, r) {
            return Ok(Asked::Here);
        }
        Ok(Asked::Past(D::passed(r, x.total)))
    }
}
