// A listing and its functions. The functions are thin: the work is done by the crate list_slice, on plain slices.
//
// Every function tests all that it is passed, the fields of a listing too. So any field values are safe.
ghost use Rattle.std.specs.Prelude.{◌≡◌, true, false};
ghost use Rattle.row.specs.Answer.{paper_found};
ghost use Rattle.list_struct.specs.Listing.{opened, created, stepped};
ghost use Rattle.list_struct.specs.Paper.{paper_listing, paper_made, paper_step};

use crate::view::{Children, Made, Step};
use list_slice::{after, first, last};
use row::Found;

// Constructs a listing from what its start has found.
fn made<'a>(
    words: &'a [u64],
    n: usize,
    nodes: &'a [i64],
    block: usize,
    rising: bool,
    start: Found,
) -> Made<'a>
    ensures { paper_made result ≡ opened rising words.entry n nodes.entry block (paper_found start) }
{
    let (gate, held) = match start {
        Ok(held) => (Ok(()), held),
        Err(k) => (Err(k), None),
    };
    Made {
        gate,
        listing: Children {
            words,
            n,
            nodes,
            block,
            rising,
            held: Ok(held),
        },
    }
}

// `children` and `rev_children` stay two functions: README and SCOPE name both, and each is one call.

// Constructs the listing of the children of v, from the first to the last.
pub fn children<'a>(
    words: &'a [u64],
    n: usize,
    nodes: &'a [i64],
    block: usize,
    v: usize,
) -> Made<'a>
    ensures { paper_made result ≡ created true words.entry n nodes.entry block v }
{
    made(
        words,
        n,
        nodes,
        block,
        true,
        first(words, n, nodes, block, v),
    )
}

// Constructs the listing of the children of v, from the last to the first.
pub fn rev_children<'a>(
    words: &'a [u64],
    n: usize,
    nodes: &'a [i64],
    block: usize,
    v: usize,
) -> Made<'a>
    ensures { paper_made result ≡ created false words.entry n nodes.entry block v }
{
    made(
        words,
        n,
        nodes,
        block,
        false,
        last(words, n, nodes, block, v),
    )
}

// Answers what the listing holds and looks for the next handle.
pub fn step<'a>(mut c: Children<'a>) -> Step<'a>
    ensures { paper_step result ≡ stepped (paper_listing c.entry) }
{
    let found = c.held;
    c.held = after(c.words, c.n, c.nodes, c.block, c.rising, found);
    Step { found, rest: c }
}
