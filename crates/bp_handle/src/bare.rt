// The calls that need no search: `root`, `first_child` and `is_leaf`.
ghost use Rattle.std.specs.Prelude.{◌≡◌, ◌+◌, ◌<◌, length};
ghost use Rattle.row.specs.Answer.{paper_found, paper_told};
ghost use Rattle.row.specs.Gates.{row_gate, through};
ghost use Rattle.bp_spec.specs.RowCalls.{handle_at, handle_answer, root, first_child, is_leaf};

use crate::gate::row_for_handle;
use row::{Found, Row, Told};

// Returns 0, the root of a row with bits, and nothing if n = 0.
#[tactic(auto, unfolding(bp_spec::specs::RowCalls::root))]
pub fn root(words: &[u64], n: usize) -> Found
    ensures { paper_found result ≡ through (row_gate (length words.now) n) (root n) }
{
    row::admit_row(words.len(), n)?;
    Ok((0 < n).then_some(0))
}

// Returns c + 1 if that is an open bit of the row, otherwise nothing. This is the first child if c is a handle, and the next sibling if c
// is the close bit of an outline node.
pub fn handle_after(row: Row, c: usize) -> Option<usize>
    requires { c < row.n }
    ensures { paper_found (Ok result) ≡ handle_at row.entry.words.now row.entry.n (c + 1) }
{
    row.opens(c + 1).then_some(c + 1)
}

// Returns the first child of v: v + 1 if that is an open bit of the row, otherwise nothing.
#[tactic(auto, using(bp_spec::proofs::Gates::bare_steps), unfolding(bp_spec::specs::RowCalls::first_child, bp_spec::specs::RowCalls::handle_answer))]
pub fn first_child(words: &[u64], n: usize, v: usize) -> Found
    ensures { paper_found result ≡ handle_answer first_child words.now n v }
{
    Ok(handle_after(row_for_handle(words, n, v)?, v))
}

// Tests whether v is an outline leaf: position v + 1 is a close bit of the row.
#[tactic(auto, using(bp_spec::proofs::Gates::bare_steps), unfolding(bp_spec::specs::RowCalls::is_leaf, bp_spec::specs::RowCalls::handle_answer))]
pub fn is_leaf(words: &[u64], n: usize, v: usize) -> Told
    ensures { paper_told result ≡ handle_answer is_leaf words.now n v }
{
    Ok(Some(row_for_handle(words, n, v)?.closes(v + 1)))
}
