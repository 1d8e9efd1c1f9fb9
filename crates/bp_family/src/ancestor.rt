// The calls that look outward from an outline node: `parent` and `is_ancestor`. Each makes one search.
//
// They test refusals 1 to 5 in this order, and the walk may give refusal 8. If the search answers nothing or a refusal, the call answers the
// same.
ghost use Rattle.std.specs.Prelude.{◌≡◌, length, IfOk};
ghost use Rattle.row.specs.Answer.{paper_found, paper_told};
ghost use Rattle.row.specs.Gates.{and_then, gate_of};
ghost use Rattle.mmt_layout.specs.Layout.{nodes_gate};
ghost use Rattle.mmt_layout.specs.Parts.{HasParts};
ghost use Rattle.bp_spec.specs.SearchPair.{on_row};
ghost use Rattle.bp_spec.specs.HandleCalls.{HandlePromise};
ghost use Rattle.bp_spec.specs.AncestorCalls.{parent, is_ancestor, both_gate, AncestorPromise};

use bits_stretch::{Backward, Forward};
use bp_handle::row_for_node;
use mmt_layout::Admitted;
use row::{Found, Refusal, Told};
use walk_code::walk;

// Returns the parent of v: `enclose(v)`, which is bwd(v, -1) because the bit at a handle is open.
#[tactic(auto, using(bp_spec::proofs::HandleAnswers::node_err))]
pub fn parent(words: &[u64], n: usize, nodes: &[i64], block: usize, v: usize) -> Found
    ensures { HandlePromise parent words.now n nodes.now block v (paper_found result) }
{
    walk::<Backward>(row_for_node(words, n, nodes, block, v)?, v, -1)
}

// Tests refusals 1 to 5, in this order, for the handles a and d.
fn admit_both<'a>(
    words: &'a [u64],
    n: usize,
    nodes: &'a [i64],
    block: usize,
    a: usize,
    d: usize,
) -> Result<Admitted<'a>, Refusal>
    ensures gate { gate_of result
        ≡ and_then (nodes_gate (length words.now) n (length nodes.now) block) (both_gate words.now n a d) }
    ensures parts { IfOk result (HasParts words.now n nodes.now block) }
{
    let admitted = row_for_node(words, n, nodes, block, a)?;
    admitted.row().admit_handle(d)?;
    Ok(admitted)
}

// Tests whether a is d or an ancestor of d: a <= d < c with c = `close(a)`. The answer is nothing if a has no close.
pub fn is_ancestor(words: &[u64], n: usize, nodes: &[i64], block: usize, a: usize, d: usize) -> Told
    ensures { AncestorPromise words.now n nodes.now block a d (paper_told result) }
{
    spans(admit_both(words, n, nodes, block, a, d)?, a, d)
}

// Answers `is_ancestor(a, d)` after its tests have passed.
#[tactic(auto, unfolding(bp_spec::specs::AncestorCalls::is_ancestor))]
fn spans(row: Admitted, a: usize, d: usize) -> Told
    ensures { paper_told result ≡ on_row is_ancestor row.entry a d }
{
    let Some(c) = walk::<Forward>(row, a, -1)? else {
        return Ok(None);
    };
    Ok(Some(a <= d && d < c))
}
