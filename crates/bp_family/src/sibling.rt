// The calls from an outline node to its last child, its next sibling and its previous sibling.
//
// They test refusals 1 to 5 in this order, and the walk may give refusal 8. `nothing` and refusals of a search are propagated unchanged.
// Over any nodes a forward walk answers a position after its start and below n. So c - 1 and c + 1 cannot overflow, and no test is needed.
ghost use Rattle.std.specs.Prelude.{◌≡◌, ◌<◌};
ghost use Rattle.row.specs.Answer.{paper_found};
ghost use Rattle.bp_spec.specs.SearchPair.{on_row};
ghost use Rattle.bp_spec.specs.HandleCalls.{HandlePromise};
ghost use Rattle.bp_spec.specs.SiblingCalls.{last_child, next_sibling, previous_sibling};

use bits_stretch::{Backward, Forward};
use bp_handle::{handle_after, row_for_node};
use mmt_layout::Admitted;
use row::Found;
use walk_code::walk;

// Returns the last child of v: `open(c - 1)` with c = `close(v)`. It is nothing, without a search, if the bit after v is not open.
#[tactic(auto, using(bp_spec::proofs::HandleAnswers::node_err, bp_spec::proofs::HandleAnswers::node_inside))]
pub fn last_child(words: &[u64], n: usize, nodes: &[i64], block: usize, v: usize) -> Found
    ensures { HandlePromise last_child words.now n nodes.now block v (paper_found result) }
{
    last_of(row_for_node(words, n, nodes, block, v)?, v)
}

// Answers `last_child(v)` after its tests have passed.
#[tactic(auto, using(crate::proofs::Siblings::found_after), unfolding(bp_spec::specs::SiblingCalls::last_child))]
fn last_of(row: Admitted, v: usize) -> Found
    requires { v < row.n }
    ensures { paper_found result ≡ on_row last_child row.entry v }
{
    if !row.row().opens(v + 1) {
        return Ok(None);
    }
    let Some(c) = walk::<Forward>(row, v, -1)? else {
        return Ok(None);
    };
    walk::<Backward>(row, c - 1, -1)
}

// Returns the next sibling of v: the position after `close(v)` if that is an open bit of the row, otherwise nothing.
#[tactic(auto, using(bp_spec::proofs::HandleAnswers::node_err))]
pub fn next_sibling(words: &[u64], n: usize, nodes: &[i64], block: usize, v: usize) -> Found
    ensures { HandlePromise next_sibling words.now n nodes.now block v (paper_found result) }
{
    next_of(row_for_node(words, n, nodes, block, v)?, v)
}

// Answers `next_sibling(v)` after its tests have passed.
#[tactic(auto, using(crate::proofs::Siblings::found_after), unfolding(bp_spec::specs::SiblingCalls::next_sibling))]
fn next_of(row: Admitted, v: usize) -> Found
    ensures { paper_found result ≡ on_row next_sibling row.entry v }
{
    let Some(c) = walk::<Forward>(row, v, -1)? else {
        return Ok(None);
    };
    Ok(handle_after(row.row(), c))
}

// Returns the previous sibling of v: `open(v - 1)` if v > 0 and position v - 1 is a close bit. Otherwise it is nothing, without a search.
#[tactic(auto, using(bp_spec::proofs::HandleAnswers::node_err))]
pub fn previous_sibling(words: &[u64], n: usize, nodes: &[i64], block: usize, v: usize) -> Found
    ensures { HandlePromise previous_sibling words.now n nodes.now block v (paper_found result) }
{
    previous_of(row_for_node(words, n, nodes, block, v)?, v)
}

// Answers `previous_sibling(v)` after its tests have passed.
#[tactic(auto, unfolding(bp_spec::specs::SiblingCalls::previous_sibling))]
fn previous_of(row: Admitted, v: usize) -> Found
    ensures { paper_found result ≡ on_row previous_sibling row.entry v }
{
    if v == 0 || !row.row().closes(v - 1) {
        return Ok(None);
    }
    walk::<Backward>(row, v - 1, -1)
}
