// The one-tree test: it decides whether a row is one tree (SCOPE, The calls).
//
// It takes no node buffer. It reads the bits once, eight at a time, for the summary of all bits but the last. The last bit must be
// a close bit.
#![tactic(auto)]

ghost use Rattle.std.specs.Prelude.{◌≡◌, ◌-◌, ◌≤◌, ◌&&◌, pos};
ghost use Rattle.std.specs.Int.Signed.{lt_z};
ghost use Rattle.row.specs.Limits.{max_bits};
ghost use Rattle.ints.specs.Order.{eq_z};
ghost use Rattle.row.specs.Bits.{bit_at};
ghost use Rattle.row.specs.Tree.{one_tree};
ghost use Rattle.bits_stretch.specs.Summary.{summary_of};
ghost use Rattle.one_tree.specs.OneTree.{OneTreePromise};

use bits_measure::stretch_summary;
use bits_stretch::Summary;
use row::{Row, Told};

// Returns the summary of all bits but the last.
fn body_summary(row: Row) -> Summary
    requires { (2 ≤ row.n) × (row.n ≤ max_bits) }
    ensures { result ≡ summary_of (bit_at row.entry.words.now) 0 (row.entry.n - 1) }
{
    stretch_summary(row.words, 0, row.n - 1)
}

// Tests whether a summary is that of one tree without its last bit: the excess stays above 0 and is 1 at the end.
fn is_body(x: Summary) -> bool
    ensures { result ≡ (lt_z (pos 0) x.least && eq_z x.total (pos 1)) }
{
    0 < x.least && x.total == 1
}

// Tests whether a row is one tree: it has at least two bits, the last one is a close bit, and `is_body` holds for the others.
#[tactic(auto, using(crate::proofs::Single::few_no, crate::proofs::Single::opens_no, crate::proofs::Single::body_is))]
fn is_one_tree(row: Row) -> bool
    requires { row.n ≤ max_bits }
    ensures { result ≡ one_tree row.entry.words.now row.entry.n }
{
    if row.n < 2 || row.opens(row.n - 1) {
        return false;
    }
    is_body(body_summary(row))
}

// Tests whether a row is one tree. Answers yes or no, after refusals 2 and 3.
#[tactic(auto, using(crate::proofs::Decided::when_refused))]
pub fn one_tree(words: &[u64], n: usize) -> Told
    ensures { OneTreePromise words.now n result }
{
    Ok(Some(is_one_tree(Row::new(words, n)?)))
}
