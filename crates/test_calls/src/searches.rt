// Runs the searches on cases a to g of SCOPE, Small rows, and on the empty row. Further cases: a backward answer at the first bit of a block, a
// childless min-max node that a climb examines, nodes that are built for another block size, and each reason for refusal 8.
use row::{Found, Refusal};
use std::io;

fn tell(rt: &impl Print, f: Found) -> io::Result<()> {
    match f {
        Ok(Some(j)) => test_say::number_line(rt, b"  at", j as u64),
        Ok(None) => test_say::line(rt, b"  nothing"),
        Err(k) => test_say::number_line(rt, b"  refused", k.number()),
    }
}

fn tell_built(rt: &impl Print, b: Result<(), Refusal>) -> io::Result<()> {
    match b {
        Ok(()) => Ok(()),
        Err(k) => test_say::number_line(rt, b"  build refused", k.number()),
    }
}

// Builds the nodes of the first n bits of the word, at most 48, with B = `block`, and prints what the search answers over them.
fn over_built<F: FnOnce(&[u64], &[i64]) -> Found>(
    rt: &impl Print,
    word: u64,
    n: usize,
    block: usize,
    search: F,
) -> io::Result<()>
    requires { F.IsAlwaysCallable search }
{
    let words = [word; 1];
    let mut nodes = [0i64; 39];
    tell_built(rt, mmt_build::build(&words, n, &mut nodes, block))?;
    tell(rt, search(&words, &nodes))
}

// Runs `fwd_search` with B = 8.
fn forward(rt: &impl Print, word: u64, n: usize, block: usize, i: usize, r: i64) -> io::Result<()> {
    over_built(rt, word, n, block, |words, nodes| {
        bp::fwd_search(words, n, nodes, 8, i, r)
    })
}

// Runs `bwd_search` with B = 8.
fn backward(
    rt: &impl Print,
    word: u64,
    n: usize,
    block: usize,
    i: usize,
    r: i64,
) -> io::Result<()> {
    over_built(rt, word, n, block, |words, nodes| {
        bp::bwd_search(words, n, nodes, 8, i, r)
    })
}

// Runs `enclose` with B = 8.
fn enclose(rt: &impl Print, word: u64, n: usize, block: usize, i: usize) -> io::Result<()> {
    over_built(rt, word, n, block, |words, nodes| {
        bp::enclose(words, n, nodes, 8, i)
    })
}

// Row T, `(()(()))`.
const ROW_T: u64 = 27;

// Cases a to d are forward, e and f backward, and g is an `enclose`.
fn cases(rt: &impl Print) -> io::Result<()> {
    test_say::line(rt, b"cases a to g")?;
    forward(rt, ROW_T, 8, 8, 0, -1)?;
    forward(rt, ROW_T, 8, 8, 0, 1)?;
    forward(rt, ROW_T, 8, 8, 2, 0)?;
    forward(rt, ROW_T, 8, 8, 7, -1)?;
    backward(rt, ROW_T, 8, 8, 7, 0)?;
    backward(rt, ROW_T, 8, 8, 4, 1)?;
    enclose(rt, ROW_T, 8, 8, 6)
}

// Calls on the empty row, without words and nodes. The last one has a block size that is refused.
fn ask_empty(rt: &impl Print, words: &[u64], nodes: &[i64]) -> io::Result<()> {
    tell(rt, bp::fwd_search(words, 0, nodes, 8, 0, 0))?;
    tell(rt, bp::bwd_search(words, 0, nodes, 8, 0, 0))?;
    tell(rt, bp::close(words, 0, nodes, 8, 0))?;
    tell(rt, bp::open(words, 0, nodes, 8, 5))?;
    tell(rt, bp::enclose(words, 0, nodes, 8, 0))?;
    tell(rt, bp::close(words, 0, nodes, 12, 0))
}

fn empty(rt: &impl Print) -> io::Result<()> {
    test_say::line(rt, b"empty row")?;
    let words = [0u64; 1];
    let nodes = [0i64; 1];
    ask_empty(rt, &words[..0], &nodes[..0])
}

// Backward answers at the first bit of a block (SCOPE, Small rows): the block is found in the climb, as the right child in the descent, and as
// the left child in the descent.
fn first_bits(rt: &impl Print) -> io::Result<()> {
    test_say::line(rt, b"first bits of blocks")?;
    backward(rt, 0b0101010111, 10, 8, 9, -3)?;
    backward(rt, 0b000101101100000000, 18, 8, 17, -1)?;
    backward(rt, 0b100000100111111111, 18, 8, 17, -3)
}

const SIX_BYTES: u64 = 0xff00ff00ff0f;

// Six block leaves: min-max node 6 has no children, and a climb from the last two block leaves examines it as a right sibling.
fn childless(rt: &impl Print) -> io::Result<()> {
    test_say::line(rt, b"a childless sibling")?;
    forward(rt, SIX_BYTES, 48, 8, 33, -9)?;
    forward(rt, SIX_BYTES, 48, 8, 3, 4)?;
    backward(rt, SIX_BYTES, 48, 8, 47, 1)
}

// Nodes that are built for blocks of 24 and searched with B = 8.
fn other_blocks(rt: &impl Print) -> io::Result<()> {
    test_say::line(rt, b"nodes of other blocks")?;
    forward(rt, SIX_BYTES, 48, 24, 0, 3)?;
    forward(rt, SIX_BYTES, 48, 24, 10, -5)?;
    backward(rt, SIX_BYTES, 48, 24, 40, 1)
}

fn put(nodes: &mut [i64], at: usize, x: i64) {
    if let Some(entry) = nodes.get_mut(at) {
        *entry = x;
    }
}

// Builds the nodes of 40 open bits in blocks of 8, replaces entry `at` of the buffer by x, and runs `fwd_search`.
fn foreign(rt: &impl Print, at: usize, x: i64, i: usize, r: i64) -> io::Result<()> {
    let words = [0xffffffffffu64; 1];
    let mut nodes = [0i64; 36];
    tell_built(rt, mmt_build::build(&words, 40, &mut nodes, 8))?;
    put(&mut nodes, at, x);
    tell(rt, bp::fwd_search(&words, 40, &nodes, 8, i, r))
}

// Min-max node 8, the second block leaf, is the first one that a climb from position 0 examines. The cases are: each of its entries out of
// range; its total at the bound, which is allowed; a least that its bits do not reach; and an r above n, for which no node is examined.
fn foreign_in_climb(rt: &impl Print) -> io::Result<()> {
    test_say::line(rt, b"foreign nodes in a climb")?;
    foreign(rt, 24, 4294967297, 0, 9)?;
    foreign(rt, 25, -4294967297, 0, 9)?;
    foreign(rt, 26, 4294967297, 0, 9)?;
    foreign(rt, 24, 4294967296, 0, 17)?;
    foreign(rt, 25, -20, 0, -3)?;
    foreign(rt, 24, 4294967297, 0, 41)
}

// The cases are: no child of min-max node 4 qualifies; the first child of node 4 has an entry out of range; the descent enters min-max node 6,
// which has no child.
fn foreign_in_descent(rt: &impl Print) -> io::Result<()> {
    test_say::line(rt, b"foreign nodes in a descent")?;
    foreign(rt, 14, 99, 0, 35)?;
    foreign(rt, 27, 4294967297, 0, 20)?;
    foreign(rt, 17, 7, 24, 15)
}

pub fn run(rt: &impl Print) -> io::Result<()> {
    cases(rt)?;
    empty(rt)?;
    first_bits(rt)?;
    childless(rt)?;
    other_blocks(rt)?;
    foreign_in_climb(rt)?;
    foreign_in_descent(rt)
}
