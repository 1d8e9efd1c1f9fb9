// The summary of a stretch of a row, read eight bits at a time: whole bytes by the lookup, then the bits after them.
//
// The summaries of the blocks are the entries of the block leaves in the min-max tree. The summary of all bits but the last decides
// whether a row is one tree.
//
// The functions refuse nothing. Callers keep the bounds that a `requires` states.
#![tactic(auto)]

ghost use Rattle.std.specs.Prelude.{◌≡◌, ◌+◌, ◌-◌, ◌*◌, ◌%◌, ◌<◌, length};
ghost use Rattle.row.specs.Limits.{max_bits, max_bytes};
ghost use Rattle.row.specs.Bits.{bit_at};
ghost use Rattle.bits_stretch.specs.Summary.{summary_of};
ghost use Rattle.bits_edge.specs.Parts.{InRow};

use bits_edge::edge_summary;
use bits_stretch::Summary;

// Returns the summary of byte q of a row.
#[tactic(auto, using(crate::proofs::Totals::byte_summary))]
fn byte_summary(words: &[u64], q: usize) -> Summary
    requires { q < 8 * length words.now }
    ensures { result ≡ summary_of (bit_at words.now) (8 * q) 8 }
{
    bits_lookup::byte_summary(row::byte(words, q))
}

// Returns the summary of bytes `from` to `to` - 1 of a row, at least one byte.
fn bytes_summary(words: &[u64], from: usize, to: usize) -> Summary
    requires in_row { InRow (8 * length words.now) from to max_bytes }
    requires from_lt_to { from < to }
    ensures { result ≡ summary_of (bit_at words.now) (8 * from) (8 * (to - from)) }
{
    (from + 1..to).fold(
        byte_summary(words, from),
        |x, q| x.join(byte_summary(words, q)),
    )
}

// Returns the summary of bits `from` to `to` - 1 of a row, at least one bit. `from` is a multiple of 8, because blocks begin there.
#[tactic(auto, using(crate::proofs::Totals::tail_summary))]
pub fn stretch_summary(words: &[u64], from: usize, to: usize) -> Summary
    requires in_row { InRow (64 * length words.now) from to max_bits }
    requires from_value { (from % 8 ≡ 0) × (from < to) }
    ensures { result ≡ summary_of (bit_at words.now) from (to - from) }
{
    let a = from / 8;
    let z = to / 8;
    if z == a {
        return edge_summary(words, from, to);
    }
    let x = bytes_summary(words, a, z);
    if to % 8 == 0 {
        return x;
    }
    x.join(edge_summary(words, 8 * z, to))
}
