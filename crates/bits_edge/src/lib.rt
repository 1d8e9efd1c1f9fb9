// The scan and the summary of a few bits of a row that lie in one word: those at the start of a search, up to a byte boundary, and those after
// the last whole byte of a stretch.
//
// These bits are fewer than eight. So they are read one by one from a single word, and no lookup table is needed.
//
// The functions refuse nothing. Callers keep the bounds that a `requires` states.
#![tactic(auto)]

ghost use Rattle.std.specs.Prelude.{◌≡◌, ◌-◌, ◌<◌, length};
ghost use Rattle.row.specs.Bits.{bit_at};
ghost use Rattle.bits_stretch.specs.Summary.{summary_of};
ghost use Rattle.bits_stretch.specs.Scan.{scan};
ghost use Rattle.bits_edge.specs.Parts.{InWord, EdgeScan};

use bits_stretch::{Direction, Scanned, Summary};

// Scans bits `from` to `to` - 1 of a row. They lie in one word.
pub fn scan_edge<D: Direction>(words: &[u64], from: usize, to: usize, r: i64) -> Scanned
    requires { EdgeScan (length words.now) from to r }
    ensures { result ≡ scan D.way (bit_at words.now) (to - from) from r }
{
    if to <= from {
        return Scanned::Continue(r);
    }
    let i = from / 64;
    let y = bits_stretch::scan_bits::<D>(words[i], from % 64, to - 64 * i, r);
    bits_stretch::moved(y, 64 * i)
}

// Returns the summary of bits `from` to `to` - 1 of a row, at least one bit. They lie in one word.
pub fn edge_summary(words: &[u64], from: usize, to: usize) -> Summary
    requires in_word { InWord (length words.now) from to }
    requires from_lt_to { from < to }
    ensures { result ≡ summary_of (bit_at words.now) from (to - from) }
{
    let i = from / 64;
    bits_stretch::bits_summary(words[i], from % 64, to - 64 * i)
}
