// The scan of one byte. If the byte does not qualify for the remainder, its summary is enough; otherwise its bits are read.
ghost use Rattle.std.specs.Prelude.{◌≡◌, ◌+◌, ◌<◌};
ghost use Rattle.ints.specs.Limits.{i64_bound};
ghost use Rattle.ints.specs.Sides.{size};
ghost use Rattle.row.specs.Bits.{digit};
ghost use Rattle.bits_stretch.specs.Scan.{scan};

use crate::summary::byte_summary;
use bits_stretch::{Direction, Scanned};

// Scans the byte b. A backward scan for r = 0 always reads the bits, and they decide. Where the original then reaches `unreachable!`, the
// result here is the remainder after the byte.
pub fn scan_byte<D: Direction>(b: u8, r: i64) -> Scanned
    requires { size r + 64 < i64_bound }
    ensures { result ≡ scan D.way (digit b) 8 0 r }
{
    let x = byte_summary(b);
    if D::holds(x, r) {
        return bits_stretch::scan_bits::<D>(b as u64, 0, 8, r);
    }
    Scanned::Continue(D::passed(r, x.total))
}
