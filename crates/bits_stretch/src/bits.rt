// The scan and the summary of bits of one word, read one by one.
ghost use Rattle.std.specs.Prelude.{◌≡◌, ◌+◌, ◌-◌, ◌^◌, ◌<◌, ◌≤◌};
ghost use Rattle.std.specs.ControlFlow.{ForBreak};
ghost use Rattle.ints.specs.Limits.{i64_bound};
ghost use Rattle.ints.specs.Sides.{size};
ghost use Rattle.row.specs.Bits.{digit};
ghost use Rattle.row.specs.Excess.{sign};
ghost use Rattle.bits_stretch.specs.Summary.{summary_of};
ghost use Rattle.bits_stretch.specs.Scan.{scan, moved};

use crate::direction::Direction;
use crate::summary::Summary;
use std::ops::ControlFlow;

// Result of a scan: it breaks off at the position that it hits, or goes on with the remainder that it leaves.
pub type Scanned = ControlFlow<usize, i64>;

// Returns what bit j of a word adds to the excess: 1 or -1.
fn sign_of(word: u64, j: usize) -> i64
    requires { j < 64 }
    ensures { result ≡ sign (digit word j) }
{
    if (word >> j) % 2 == 0 { -1 } else { 1 }
}

// Scans bits `from` to `to` - 1. It hits the first bit met where the remainder becomes 0.
pub fn scan_bits<D: Direction>(word: u64, from: usize, to: usize, r: i64) -> Scanned
    requires from_le_to { (from ≤ to) × (to ≤ 64) }
    requires r_bound { size r + 64 < i64_bound }
    ensures { result ≡ scan D.way (digit word) (to - from) from r }
{
    let mut j = from;
    let mut q = r;
    for c in (0..to - from).rev() {
        let x = D::place(c, j);
        q = D::passed(q, sign_of(word, x));
        if q == 0 {
            return ControlFlow::Break(x);
        }
        j = D::rest(j);
    }
    ControlFlow::Continue(q)
}

// Returns the result of a scan for the same bits a positions further on.
pub fn moved(y: Scanned, a: usize) -> Scanned
    requires { ForBreak y (λ j. a + j < 2 ^ 64) }
    ensures { result ≡ moved a y }
{
    y.map_break(|j| a + j)
}

// Returns the summary of a single bit.
fn bit_summary(word: u64, j: usize) -> Summary
    requires { j < 64 }
    ensures { result ≡ summary_of (digit word) j 1 }
{
    let s = sign_of(word, j);
    Summary {
        total: s,
        least: s,
        greatest: s,
    }
}

// Returns the summary of bits `from` to `to` - 1, at least one bit.
pub fn bits_summary(word: u64, from: usize, to: usize) -> Summary
    requires { (from < to) × (to ≤ 64) }
    ensures { result ≡ summary_of (digit word) from (to - from) }
{
    (from + 1..to).fold(bit_summary(word, from), |x, j| x.join(bit_summary(word, j)))
}
