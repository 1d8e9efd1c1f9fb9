// Writes a whole listing with one call, for callers that keep no listing.
//
// The answers of the steps are written in order, as the C functions number them. A refused constructor leaves the slice unchanged.
ghost use Rattle.std.specs.Prelude.{◌≡◌, length};
ghost use Rattle.row.specs.Writes.{Writes};
ghost use Rattle.row.specs.Answer.{paper_found, paper_read};
ghost use Rattle.list_slice.specs.Seek.{sought, held_after};
ghost use Rattle.list_slice.specs.WholeListing.{Writable, Wrote, count_of, left_of};

use row::{Found, Refusal};

// Starts a listing in the direction that `rising` says.
fn start(words: &[u64], n: usize, nodes: &[i64], block: usize, rising: bool, v: usize) -> Found
    ensures { paper_found result ≡ sought rising words.now n nodes.now block v }
{
    if rising {
        crate::seek::first(words, n, nodes, block, v)
    } else {
        crate::seek::last(words, n, nodes, block, v)
    }
}

// Writes the answers of the steps from `first` on, up to and with the first `nothing`, or until `out` is full. Returns how many it wrote.
fn write_steps(
    words: &[u64],
    n: usize,
    nodes: &[i64],
    block: usize,
    rising: bool,
    first: Found,
    out: &mut [i64],
) -> usize
    requires { Writable n (paper_found first) }
    ensures { Wrote (held_after rising words.now n nodes.now block) (paper_found first) out.old out.new result }
{
    let mut held = first;
    for (i, place) in out.iter_mut().enumerate() {
        *place = wire::found(held);
        if held == Ok(None) {
            return i + 1;
        }
        held = crate::seek::after(words, n, nodes, block, rising, held);
    }
    out.len()
}

// Writes the children of v to `out`, rising or falling. Returns the number of answers written, or the refusal of the constructor.
pub fn list(
    words: &[u64],
    n: usize,
    nodes: &[i64],
    block: usize,
    rising: bool,
    v: usize,
    out: &mut [i64],
) -> Result<usize, Refusal>
    ensures { Writes (paper_read result) (count_of rising words.now n nodes.now block v (length out.old))
        out.new (left_of rising words.now n nodes.now block v out.old) }
{
    let held = start(words, n, nodes, block, rising, v)?;
    Ok(write_steps(words, n, nodes, block, rising, Ok(held), out))
}
