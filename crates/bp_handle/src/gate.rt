// The tests before a call that takes a handle.
//
// `admit_handle` and `admit_node` return `Ok(())`, or the refusal of the first test that fails. A caller that keeps this result may write to
// the slices. `row_for_handle` and `row_for_node` make the same tests and return the row. It borrows the slices.
ghost use Rattle.std.specs.Prelude.{◌≡◌, length, IfOk};
ghost use Rattle.row.specs.Gates.{row_gate, handle_gate, and_then, gate_of};
ghost use Rattle.row.specs.Parts.{HasBits};
ghost use Rattle.mmt_layout.specs.Layout.{nodes_gate};
ghost use Rattle.mmt_layout.specs.Parts.{HasParts};

use mmt_layout::Admitted;
use row::{Refusal, Row};

// Tests refusals 2, 3 and 5, in this order, for the handle v.
pub fn admit_handle(words: &[u64], n: usize, v: usize) -> Result<(), Refusal>
    ensures { result ≡ and_then (row_gate (length words.now) n) (handle_gate words.now n v) }
{
    row_for_handle(words, n, v)?;
    Ok(())
}

// Tests refusals 1 to 5, in this order, for the handle v.
pub fn admit_node(
    words: &[u64],
    n: usize,
    nodes: &[i64],
    block: usize,
    v: usize,
) -> Result<(), Refusal>
    ensures { result
        ≡ and_then (nodes_gate (length words.now) n (length nodes.now) block) (handle_gate words.now n v) }
{
    row_for_node(words, n, nodes, block, v)?;
    Ok(())
}

// Tests refusals 2, 3 and 5, in this order, for the handle v. Returns the row.
pub fn row_for_handle<'a>(words: &'a [u64], n: usize, v: usize) -> Result<Row<'a>, Refusal>
    ensures gate { gate_of result ≡ and_then (row_gate (length words.now) n) (handle_gate words.now n v) }
    ensures parts { IfOk result (HasBits words.now n) }
{
    let row = Row::new(words, n)?;
    row.admit_handle(v)?;
    Ok(row)
}

// Tests refusals 1 to 5, in this order, for the handle v. Returns the admitted row.
pub fn row_for_node<'a>(
    words: &'a [u64],
    n: usize,
    nodes: &'a [i64],
    block: usize,
    v: usize,
) -> Result<Admitted<'a>, Refusal>
    ensures gate { gate_of result
        ≡ and_then (nodes_gate (length words.now) n (length nodes.now) block) (handle_gate words.now n v) }
    ensures parts { IfOk result (HasParts words.now n nodes.now block) }
{
    let admitted = Admitted::new(words, n, nodes, block)?;
    admitted.row().admit_handle(v)?;
    Ok(admitted)
}
