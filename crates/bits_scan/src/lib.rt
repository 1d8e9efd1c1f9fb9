// The scan within a block, in either direction, which reads the bits of a row eight at a time.
//
// A scan reads a stretch in three parts: the bits in its first word, whole words, then the bits in its last word. The bits in one word are
// read in three parts too: bits up to a byte boundary, whole bytes by the lookup, then the bits that are left. A backward scan reads the
// parts in the reverse order.
//
// The functions refuse nothing. Callers keep the bounds that a `requires` states.
#![tactic(auto)]

ghost use Rattle.std.specs.Prelude.{◌≡◌, ◌-◌, ◌*◌, length};
ghost use Rattle.row.specs.Bits.{digit, bit_at};
ghost use Rattle.bits_stretch.specs.Scan.{scan};
ghost use Rattle.bits_scan.specs.Scan.{WordScan, PartScan, WordsScan, BitsScan};
ghost use Rattle.bits_scan.specs.Parts.{CutAt, parts_of};

use bits_stretch::{Direction, Scanned};

// Scans bytes `from` to `to` - 1 of a word. A `match` moves the hit here and in `scan_words`: with `moved` and `?` the loops are up to a
// twentieth slower.
fn scan_bytes<D: Direction>(word: u64, from: usize, to: usize, r: i64) -> Scanned
    requires { WordScan 8 from to r }
    ensures { result ≡ scan D.way (digit word) (8 * (to - from)) (8 * from) r }
{
    let bytes = word.to_le_bytes();
    let mut k = from;
    let mut q = r;
    for c in (0..to - from).rev() {
        let i = D::place(c, k);
        match bits_lookup::scan_byte::<D>(bytes[i], q) {
            Scanned::Break(j) => return Scanned::Break(8 * i + j),
            Scanned::Continue(l) => q = l,
        }
        k = D::rest(k);
    }
    Scanned::Continue(q)
}

// The parts of a stretch: its whole units, and the bits beside them that are met first and last. Each part is given by its begin and its end.
// The whole ones are counted in units. A part without bits has the same begin and end.
#[derive(Clone, Copy)]
struct Parts {
    first: (usize, usize),
    whole: (usize, usize),
    last: (usize, usize),
}

// Cuts bits `from` to `to` - 1 at multiples of `unit`: at the first one from `from` on, and at the last one up to `to`.
fn cut<D: Direction>(from: usize, to: usize, unit: usize) -> Parts
    requires { CutAt unit from to }
    ensures { result ≡ parts_of D.way from to unit }
{
    let a = (from + (unit - 1)) / unit;
    let z = a.max(to / unit);
    let (first, last) = D::order((from, to.min(unit * a)), (to.min(unit * z), to));
    Parts {
        first,
        whole: (a, z),
        last,
    }
}

// Scans bits `from` to `to` - 1 of a word.
fn scan_part<D: Direction>(word: u64, from: usize, to: usize, r: i64) -> Scanned
    requires { WordScan 64 from to r }
    ensures { result ≡ scan D.way (digit word) (to - from) from r }
{
    let x = cut::<D>(from, to, 8);
    let p = bits_stretch::scan_bits::<D>(word, x.first.0, x.first.1, r)?;
    let q = scan_bytes::<D>(word, x.whole.0, x.whole.1, p)?;
    bits_stretch::scan_bits::<D>(word, x.last.0, x.last.1, q)
}

// Scans bits `from` to `to` - 1 of a row. They lie in one word.
fn scan_in_word<D: Direction>(words: &[u64], from: usize, to: usize, r: i64) -> Scanned
    requires { PartScan (length words.now) from to r }
    ensures { result ≡ scan D.way (bit_at words.now) (to - from) from r }
{
    if to <= from {
        return Scanned::Continue(r);
    }
    let i = from / 64;
    let y = scan_part::<D>(words[i], from % 64, to - 64 * i, r);
    bits_stretch::moved(y, 64 * i)
}

// Scans a word. It is passed at once if |r| is above 64, because then none of its bits can be hit.
fn scan_word<D: Direction>(word: u64, r: i64) -> Scanned
    requires { WordScan 64 0 64 r }
    ensures { result ≡ scan D.way (digit word) 64 0 r }
{
    if 64 < r || r < -64 {
        return Scanned::Continue(D::passed(r, bits_lookup::word_total(word)));
    }
    scan_bytes::<D>(word, 0, 8, r)
}

// Scans words `from` to `to` - 1 of a row.
fn scan_words<D: Direction>(words: &[u64], from: usize, to: usize, r: i64) -> Scanned
    requires { WordsScan (length words.now) from to r }
    ensures { result ≡ scan D.way (bit_at words.now) (64 * (to - from)) (64 * from) r }
{
    let mut k = from;
    let mut q = r;
    for c in (0..to - from).rev() {
        let i = D::place(c, k);
        match scan_word::<D>(words[i], q) {
            Scanned::Break(j) => return Scanned::Break(64 * i + j),
            Scanned::Continue(l) => q = l,
        }
        k = D::rest(k);
    }
    Scanned::Continue(q)
}

// Scans bits `from` to `to` - 1 of a row.
pub fn scan_block<D: Direction>(words: &[u64], from: usize, to: usize, r: i64) -> Scanned
    requires { BitsScan (length words.now) from to r }
    ensures { result ≡ scan D.way (bit_at words.now) (to - from) from r }
{
    let x = cut::<D>(from, to, 64);
    let p = scan_in_word::<D>(words, x.first.0, x.first.1, r)?;
    let q = scan_words::<D>(words, x.whole.0, x.whole.1, p)?;
    scan_in_word::<D>(words, x.last.0, x.last.1, q)
}
