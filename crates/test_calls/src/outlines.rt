// Prints the levels and the child listings, in both directions, of row T and of larger trees. Also runs positions that are no handles, and a
// foreign node buffer that leads a listing to a close bit.
use row::{Found, Refusal};
use std::io;

// `tell_built` and `tell` of this file and of searches.rt print in two formats, so they are no functions of one module.
fn tell_built(rt: &impl Print, b: Result<(), Refusal>) -> io::Result<()> {
    match b {
        Ok(()) => Ok(()),
        Err(k) => test_say::number(rt, b"build refused", k.number()),
    }
}

fn tell(rt: &impl Print, f: Found) -> io::Result<()> {
    match f {
        Ok(Some(j)) => test_say::number(rt, b"", j as u64),
        Ok(None) => test_say::line(rt, b" nothing"),
        Err(k) => test_say::number_line(rt, b" refused", k.number()),
    }
}

// Prints an answer as `list` writes it.
fn tell_number(rt: &impl Print, x: i64) -> io::Result<()> {
    match test_say::answer(x) {
        Ok(Some(j)) => test_say::number(rt, b"", j),
        Ok(None) => test_say::line(rt, b" nothing"),
        Err(k) => test_say::number(rt, b" refused", k),
    }
}

// Prints a level from one end to the other. `from` is the answer for the first end, and `next` gives the node after another one.
fn tell_level<F: Fn(usize) -> Found>(
    rt: &impl Print,
    n: usize,
    from: Found,
    next: F,
) -> io::Result<()>
    requires { F.IsAlwaysCallable next }
{
    let mut f = from;
    for _ in 0..n {
        tell(rt, f)?;
        let Ok(Some(v)) = f else {
            return Ok(());
        };
        f = next(v);
    }
    Ok(())
}

// Prints the levels from 0 to `deepest` - 1, in both directions. Callers pass a `deepest` for which the last of these levels is empty.
fn levels(rt: &impl Print, words: &[u64], n: usize, nodes: &[i64], deepest: u64) -> io::Result<()> {
    for k in 0..deepest {
        let first = bp::level_leftmost(words, n, nodes, 8, k);
        test_say::number(rt, b"level", k)?;
        tell_level(rt, n, first, |v| bp::level_next(words, n, nodes, 8, v))?;
        let last = bp::level_rightmost(words, n, nodes, 8, k);
        test_say::number(rt, b"level", k)?;
        tell_level(rt, n, last, |v| bp::level_prev(words, n, nodes, 8, v))?;
    }
    Ok(())
}

fn answers(rt: &impl Print, out: &[i64], count: usize) -> io::Result<()> {
    for &x in out.iter().take(count) {
        tell_number(rt, x)?;
    }
    Ok(())
}

// Prints the children of the outline node v, in one direction.
fn children(
    rt: &impl Print,
    words: &[u64],
    n: usize,
    nodes: &[i64],
    block: usize,
    rising: bool,
    v: usize,
) -> io::Result<()> {
    let mut out = [0i64; 70];
    test_say::number(rt, b"children of", v as u64)?;
    match list_slice::list(words, n, nodes, block, rising, v, &mut out) {
        Ok(count) => answers(rt, &out, count),
        Err(k) => test_say::number_line(rt, b" refused", k.number()),
    }
}

// Prints the children of every position before `end`, in both directions. The position of a close bit is refused.
fn families(rt: &impl Print, words: &[u64], n: usize, nodes: &[i64], end: usize) -> io::Result<()> {
    for v in 0..end {
        children(rt, words, n, nodes, 8, true, v)?;
        children(rt, words, n, nodes, 8, false, v)?;
    }
    Ok(())
}

// Builds the nodes for the first n bits of two words, with B = 8. Prints the levels, and the children of every position before `end`.
fn outline(
    rt: &impl Print,
    low: u64,
    high: u64,
    n: usize,
    deepest: u64,
    end: usize,
) -> io::Result<()> {
    let words = [low, high];
    let mut nodes = [0i64; 93];
    tell_built(rt, mmt_build::build(&words, n, &mut nodes, 8))?;
    levels(rt, &words, n, &nodes, deepest)?;
    families(rt, &words, n, &nodes, end)
}

// Builds the nodes for the first n bits of two words, with B = 8. Prints the children of v, in one direction, asked for with B = `block`.
fn listing(
    rt: &impl Print,
    low: u64,
    high: u64,
    n: usize,
    block: usize,
    rising: bool,
    v: usize,
) -> io::Result<()> {
    let words = [low, high];
    let mut nodes = [0i64; 93];
    tell_built(rt, mmt_build::build(&words, n, &mut nodes, 8))?;
    children(rt, &words, n, &nodes, block, rising, v)
}

// Row T, `(()(()))`; a position after its end; and a block size that is refused.
fn small(rt: &impl Print) -> io::Result<()> {
    test_say::line(rt, b"(()(()))")?;
    outline(rt, 27, 0, 8, 4, 8)?;
    listing(rt, 27, 0, 8, 8, true, 8)?;
    listing(rt, 27, 0, 8, 12, true, 0)
}

// One outline node: `level_rightmost(0)` is nothing, as in the original.
fn pair(rt: &impl Print) -> io::Result<()> {
    test_say::line(rt, b"()")?;
    outline(rt, 1, 0, 2, 2, 2)
}

// A tree of 40 bits in five blocks.
fn middling(rt: &impl Print) -> io::Result<()> {
    test_say::line(rt, b"((()(()))()((()))((())(()()))(()(()))())")?;
    outline(rt, 0x2362ce3a37, 0, 40, 5, 40)
}

// A root with 63 children, all of them outline leaves.
fn wide(rt: &impl Print) -> io::Result<()> {
    test_say::line(rt, b"wide")?;
    outline(rt, 0xaaaaaaaaaaaaaaab, 0x2aaaaaaaaaaaaaaa, 128, 3, 1)
}

// A chain of 64 outline nodes, each the only child of the one before.
fn deep(rt: &impl Print) -> io::Result<()> {
    test_say::line(rt, b"deep")?;
    outline(rt, 0xffffffffffffffff, 0, 128, 65, 0)?;
    listing(rt, 0xffffffffffffffff, 0, 128, 8, true, 62)?;
    listing(rt, 0xffffffffffffffff, 0, 128, 8, false, 63)
}

// The total of min-max node 4 is changed from 2 to 5. Then the reverse listing of the outline node 9 answers position 5, which is a close bit
// (SCOPE, Listing children).
fn foreign(rt: &impl Print) -> io::Result<()> {
    test_say::line(rt, b"((((())))((()()()))) with foreign nodes")?;
    listing(rt, 0xae1f, 0, 20, 8, false, 9)?;
    let words = [0xae1fu64; 1];
    let mut nodes = [0i64; 18];
    tell_built(rt, mmt_build::build(&words, 20, &mut nodes, 8))?;
    nodes[12] = 5;
    children(rt, &words, 20, &nodes, 8, false, 9)
}

pub fn run(rt: &impl Print) -> io::Result<()> {
    small(rt)?;
    pair(rt)?;
    middling(rt)?;
    wide(rt)?;
    deep(rt)?;
    foreign(rt)
}
