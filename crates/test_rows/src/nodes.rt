// Runs the build on small rows, with its refusals, and the as-built test on built, damaged and foreign buffers. Prints the number of inner
// nodes for the numbers of block leaves in the table of SCOPE, The node buffer.
use row::{Refusal, Told};
use std::io;

fn tell_built(rt: &impl Print, b: Result<(), Refusal>) -> io::Result<()> {
    match b {
        Ok(()) => test_say::line(rt, b"  done"),
        Err(k) => test_say::number_line(rt, b"  refused", k.number()),
    }
}

fn tell(rt: &impl Print, t: Told) -> io::Result<()> {
    match t {
        Ok(Some(true)) => test_say::line(rt, b"  as built"),
        Ok(Some(false)) => test_say::line(rt, b"  not as built"),
        Ok(None) => test_say::line(rt, b"  nothing"),
        Err(k) => test_say::number_line(rt, b"  test refused", k.number()),
    }
}

fn say_row(rt: &impl Print, n: usize, block: usize) -> io::Result<()> {
    test_say::number_line(rt, b"bits", n as u64)?;
    test_say::number_line(rt, b"block", block as u64)
}

fn build(
    rt: &impl Print,
    words: &[u64],
    n: usize,
    nodes: &mut [i64],
    block: usize,
) -> io::Result<()> {
    say_row(rt, n, block)?;
    tell_built(rt, mmt_build::build(words, n, nodes, block))?;
    tell(rt, mmt_build::as_built(words, n, nodes, block))
}

// Prints whether entry i of the buffer is x.
fn number_is(rt: &impl Print, nodes: &[i64], i: usize, x: i64) -> io::Result<()> {
    if i < nodes.len() && nodes[i] == x {
        test_say::line(rt, b"  number as given")
    } else {
        test_say::line(rt, b"  another number")
    }
}

// Prints whether the three entries from i on are these.
fn node_is(
    rt: &impl Print,
    nodes: &[i64],
    i: usize,
    total: i64,
    least: i64,
    greatest: i64,
) -> io::Result<()> {
    if i < 4096 {
        number_is(rt, nodes, i, total)?;
        number_is(rt, nodes, i + 1, least)?;
        number_is(rt, nodes, i + 2, greatest)?;
    }
    Ok(())
}

// Overwrites entry i of a built buffer by x and runs the as-built test.
fn damage(
    rt: &impl Print,
    words: &[u64],
    n: usize,
    nodes: &mut [i64],
    block: usize,
    i: usize,
    x: i64,
) -> io::Result<()> {
    if nodes.len() <= i {
        return Ok(());
    }
    nodes[i] = x;
    tell(rt, mmt_build::as_built(words, n, nodes, block))
}

fn inner(rt: &impl Print, leaves: usize) -> io::Result<()> {
    if leaves <= 9 {
        let l = mmt_layout::layout_of(8 * leaves, 8);
        test_say::number_line(rt, b"leaves", l.leaves as u64)?;
        test_say::number_line(rt, b"  inner", l.inner as u64)?;
    }
    Ok(())
}

fn row_t_nodes(rt: &impl Print, nodes: &[i64]) -> io::Result<()> {
    node_is(rt, nodes, 0, 0, 0, 3)?;
    node_is(rt, nodes, 3, 0, 0, 3)?;
    number_is(rt, nodes, 6, 7)
}

// Row T in one block, in a buffer with one entry more than needed.
fn row_t(rt: &impl Print) -> io::Result<()> {
    let words = [27u64; 1];
    let mut nodes = [7i64; 7];
    build(rt, &words, 8, &mut nodes, 8)?;
    row_t_nodes(rt, &nodes)?;
    damage(rt, &words, 8, &mut nodes, 8, 4, -1)
}

const FORTY: u64 = 0x0f0f33ff01;

// Forty bits in five blocks, in a buffer with one entry too few.
fn forty_refused(rt: &impl Print) -> io::Result<()> {
    let words = [FORTY; 1];
    let mut nodes = [9i64; 35];
    build(rt, &words, 40, &mut nodes, 8)?;
    number_is(rt, &nodes, 0, 9)
}

// Min-max node 5 has only a left child, and min-max node 6 has no children. For blocks of 16 the buffer is as built too, because the min-max
// tree is the same without its lowest level. For blocks of 24 and for 39 bits it is foreign.
fn forty_nodes(rt: &impl Print, words: &[u64], nodes: &[i64]) -> io::Result<()> {
    node_is(rt, nodes, 18, 0, 0, 0)?;
    node_is(rt, nodes, 15, 0, 0, 4)?;
    tell(rt, mmt_build::as_built(words, 40, nodes, 16))?;
    tell(rt, mmt_build::as_built(words, 40, nodes, 24))?;
    tell(rt, mmt_build::as_built(words, 39, nodes, 8))
}

fn forty(rt: &impl Print) -> io::Result<()> {
    let words = [FORTY; 1];
    let mut nodes = [9i64; 36];
    build(rt, &words, 40, &mut nodes, 8)?;
    forty_nodes(rt, &words, &nodes)?;
    damage(rt, &words, 40, &mut nodes, 8, 20, 1)
}

fn build_two_words(rt: &impl Print, n: usize, block: usize) -> io::Result<()> {
    let words = [5u64; 2];
    let mut nodes = [1i64; 48];
    build(rt, &words, n, &mut nodes, block)
}

// The empty row and an empty buffer.
fn build_none(rt: &impl Print, block: usize) -> io::Result<()> {
    let words = [5u64; 2];
    let mut nodes = [1i64; 1];
    build(rt, &words, 0, &mut nodes[..0], block)
}

fn block_sizes(rt: &impl Print) -> io::Result<()> {
    for block in [65536, 65544, 12, 0, 64] {
        build_two_words(rt, 128, block)?;
    }
    build_two_words(rt, 129, 64)?;
    build_two_words(rt, 4294967297, 64)?;
    build_none(rt, 64)?;
    build_none(rt, 7)
}

pub fn run(rt: &impl Print) -> io::Result<()> {
    row_t(rt)?;
    forty_refused(rt)?;
    forty(rt)?;
    block_sizes(rt)?;
    for leaves in [1, 2, 3, 4, 5, 8, 9] {
        inner(rt, leaves)?;
    }
    Ok(())
}
