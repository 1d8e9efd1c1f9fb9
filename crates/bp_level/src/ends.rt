// The first and the last outline node of a level: `level_leftmost` and `level_rightmost`. They take a level and no handle.
//
// They test refusals 1 to 4, and the walk or the root may give refusal 8. A level is any u64; above n the answer is nothing.
// `level_rightmost` searches backward from 2*ones - 1. It does not count the open bits: over nodes as built the total of the root tells
// their number. So it examines the root first.
ghost use Rattle.std.specs.Prelude.{◌≡◌, pos, ◌+ℤ◌, ◌-ℤ◌, length};
ghost use Rattle.row.specs.Answer.{paper_found};
ghost use Rattle.bp_spec.specs.SearchPair.{on_row};
ghost use Rattle.bp_spec.specs.LevelEnds.{level_leftmost, level_rightmost, in_row, root_start, LevelPromise, RightmostPromise};
ghost use Rattle.bp_level.specs.RootStart.{RootThere, RootTotal};

use crate::from_node::{too_far, walk_twice};
use bits_stretch::{Backward, Forward};
use mmt_layout::Admitted;
use row::Found;
use walk_code::walk;

// ---- after the tests

// Answers `level_leftmost(k)`: 0 for level 0 of a row with bits, otherwise fwd(0, k).
#[tactic(auto, using(crate::proofs::LevelEnds::leftmost_steps), unfolding(bp_spec::specs::LevelEnds::level_leftmost))]
fn leftmost_at(row: Admitted, k: u64) -> Found
    ensures { paper_found result ≡ on_row level_leftmost row.entry k }
{
    if row.n == 0 || too_far(row.n, k) {
        return Ok(None);
    }
    if k == 0 {
        return Ok(Some(0));
    }
    walk::<Forward>(row, 0, k as i64)
}

// Returns n + total - 1 if that is a position of the row, otherwise nothing. With foreign nodes the number can be below 0 or at least n.
fn start_by(n: usize, total: i64) -> Option<usize>
    requires { RootTotal n total }
    ensures { paper_found (Ok result) ≡ in_row n (pos n +ℤ total -ℤ pos 1) }
{
    let i = usize::try_from(n as i64 + total - 1).ok()?;
    (i < n).then_some(i)
}

// Returns the position where `level_rightmost` starts. It examines the root first and refuses by 8 if an entry is out of range.
#[tactic(auto, using(crate::proofs::LevelEnds::root_err), unfolding(bp_spec::specs::LevelEnds::root_start))]
fn root_start(n: usize, nodes: &[i64]) -> Found
    requires { RootThere n (length nodes.now) }
    ensures { paper_found result ≡ root_start n nodes.now }
{
    if n == 0 {
        return Ok(None);
    }
    let root = walk_examine::examine(nodes, 0)?;
    Ok(start_by(n, root.total))
}

// Answers `level_rightmost(k)`: `open(j)` with j = bwd(start, k). For a level above n the answer is nothing, and the root is not read.
#[tactic(auto, using(crate::proofs::NodeLevels::level_read), unfolding(bp_spec::specs::LevelEnds::level_rightmost))]
fn rightmost_at(row: Admitted, k: u64) -> Found
    ensures { paper_found result ≡ on_row level_rightmost row.entry (root_start row.entry.n row.entry.nodes.now) k }
{
    if too_far(row.n, k) {
        return Ok(None);
    }
    let Some(i) = root_start(row.n, row.nodes)? else {
        return Ok(None);
    };
    walk_twice::<Backward>(row, i, k as i64, -1)
}

// ---- the calls

// Returns the first outline node of level k: 0 for level 0 of a row with bits, otherwise fwd(0, k).
#[tactic(auto, using(crate::proofs::LevelEnds::level_err))]
pub fn level_leftmost(words: &[u64], n: usize, nodes: &[i64], block: usize, k: u64) -> Found
    ensures { LevelPromise level_leftmost words.now n nodes.now block k (paper_found result) }
{
    leftmost_at(Admitted::new(words, n, nodes, block)?, k)
}

// Returns the last outline node of level k: `open(j)` with j = bwd(2*ones - 1, k).
#[tactic(auto, using(crate::proofs::LevelEnds::rightmost_err))]
pub fn level_rightmost(words: &[u64], n: usize, nodes: &[i64], block: usize, k: u64) -> Found
    ensures { RightmostPromise words.now n nodes.now block k (paper_found result) }
{
    rightmost_at(Admitted::new(words, n, nodes, block)?, k)
}
