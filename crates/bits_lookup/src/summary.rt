// The summary of a byte: the total by counting ones, least and greatest by the table.
ghost use Rattle.std.specs.Prelude.{◌≡◌, pos, ◌-ℤ◌};
ghost use Rattle.row.specs.Bits.{digit};
ghost use Rattle.row.specs.Excess.{excess};
ghost use Rattle.bits_stretch.specs.Summary.{summary_of};

use crate::encoding::entry;
use bits_stretch::Summary;

// Returns the value that a part of an entry encodes. In an entry it is raised by 8.
fn lowered(a: u16) -> i64
    ensures { result ≡ pos a -ℤ pos 8 }
{
    a as i64 - 8
}

// Returns the total of a byte: its ones minus its zeros. Both are i64, so that the compiler computes 2 * ones - 8. It would not do
// so if a difference of u32 were widened.
fn byte_total(b: u8) -> i64
    ensures { result ≡ excess (digit b) 8 }
{
    let ones = u8::count_ones(b) as i64;
    let zeros = 8 - ones;
    ones - zeros
}

// Returns the total of a word: its ones minus its zeros. SCOPE requires this form for a byte. One function for both widths would need a
// trait with two impls to save one line.
pub fn word_total(w: u64) -> i64
    ensures { result ≡ excess (digit w) 64 }
{
    let ones = u64::count_ones(w) as i64;
    let zeros = 64 - ones;
    ones - zeros
}

// Returns the summary of the byte b.
pub fn byte_summary(b: u8) -> Summary
    ensures { result ≡ summary_of (digit b) 0 8 }
{
    let e = entry(b);
    Summary {
        total: byte_total(b),
        least: lowered(e / 32),
        greatest: lowered(e % 32),
    }
}
