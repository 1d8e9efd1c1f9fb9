// The calls on levels that take a handle: `level_ancestor`, `level_next` and `level_prev`.
//
// They test refusals 1 to 5, and the walk may give refusal 8. `level_ancestor` takes any u64 as its level; above n the answer is nothing.
// The functions `too_far` and `walk_twice` are public because `level_leftmost` and `level_rightmost` use them too.
ghost use Rattle.std.specs.Prelude.{◌≡◌, ltb};
ghost use Rattle.row.specs.Answer.{paper_found};
ghost use Rattle.bp_spec.specs.SearchPair.{on_row, onward, walked_to};
ghost use Rattle.bp_spec.specs.HandleCalls.{HandlePromise};
ghost use Rattle.bp_spec.specs.LevelCalls.{level_ancestor, level_next, level_prev};

use bits_stretch::{Backward, Forward};
use bp_handle::row_for_node;
use mmt_layout::Admitted;
use row::Found;
use walk_code::{StartOfWalk, walk};

// Tests whether k > n: the excess of two positions of n bits never differs by more than n. The test uses the u64, because not every u64 is
// an i64.
pub fn too_far(n: usize, k: u64) -> bool
    ensures { result ≡ ltb n k }
{
    (n as u64) < k
}

// ---- after the tests

// Answers `level_ancestor(v, k)`: v for k = 0, otherwise bwd(v, -k).
#[tactic(auto, using(crate::proofs::NodeLevels::less_read, crate::proofs::NodeLevels::ancestor_far), unfolding(bp_spec::specs::LevelCalls::level_ancestor))]
fn ancestor_at(row: Admitted, v: usize, k: u64) -> Found
    ensures { paper_found result ≡ on_row (level_ancestor k) row.entry v }
{
    if k == 0 {
        return Ok(Some(v));
    }
    if too_far(row.n, k) {
        return Ok(None);
    }
    walk::<Backward>(row, v, -(k as i64))
}

// Walks from i for r, and then from the position found for s, both in the direction D.
pub fn walk_twice<D: StartOfWalk>(row: Admitted, i: usize, r: i64, s: i64) -> Found
    ensures { paper_found result ≡ onward (walked_to D.way row.entry i r) (λ j. walked_to D.way row.entry j s) }
{
    let Some(j) = walk::<D>(row, i, r)? else {
        return Ok(None);
    };
    walk::<D>(row, j, s)
}

// ---- the calls

// Returns the ancestor of v that is k levels up: v for k = 0, otherwise bwd(v, -k).
#[tactic(auto, using(bp_spec::proofs::HandleAnswers::node_err))]
pub fn level_ancestor(
    words: &[u64],
    n: usize,
    nodes: &[i64],
    block: usize,
    v: usize,
    k: u64,
) -> Found
    ensures { HandlePromise (level_ancestor k) words.now n nodes.now block v (paper_found result) }
{
    ancestor_at(row_for_node(words, n, nodes, block, v)?, v, k)
}

// Returns the next outline node on the level of v: fwd(c, 1) with c = `close(v)`.
#[tactic(auto, using(bp_spec::proofs::HandleAnswers::node_err))]
pub fn level_next(words: &[u64], n: usize, nodes: &[i64], block: usize, v: usize) -> Found
    ensures { HandlePromise level_next words.now n nodes.now block v (paper_found result) }
{
    walk_twice::<Forward>(row_for_node(words, n, nodes, block, v)?, v, -1, 1)
}

// Returns the previous outline node on the level of v: `open(j)` with j = bwd(v, 1).
#[tactic(auto, using(bp_spec::proofs::HandleAnswers::node_err))]
pub fn level_prev(words: &[u64], n: usize, nodes: &[i64], block: usize, v: usize) -> Found
    ensures { HandlePromise level_prev words.now n nodes.now block v (paper_found result) }
{
    walk_twice::<Backward>(row_for_node(words, n, nodes, block, v)?, v, 1, -1)
}
