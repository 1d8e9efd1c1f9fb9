// Asks this port the questions that the program `answers` (host/original) asks the original Rust, on the same rows, and prints the answers in
// the same format. The file stdout is the output of `answers`. So CI compares the port with the original without a Rust compiler.
//
// The file stdin has one row per line:
// - `()` and row T
// - a path 40 deep, an outline node with 40 children, a comb
// - random trees of 60, 130 and 258 bits
// - rows that are not one tree: one that starts with close bits, one with open bits left, two trees, a tree and an open bit
//
// Some rows end with a block (8, 16 and 80 bits) or with a word (64 bits). Some end just after a block (9, 17, 25 and 82 bits) or just after a
// word (130 and 258 bits).
#![tactic(auto)]

use row::{Found, Told};
use std::io;

fn say(rt: &impl Print, text: &[u8]) -> io::Result<()> {
    rt.write_all(text)
}

fn say_number(rt: &impl Print, n: u64) -> io::Result<()> {
    test_say::number(rt, b"", n)
}

// Prints a refusal. No question of this program is refused, so a refusal would differ from the file stdout.
fn refused(rt: &impl Print, k: u64) -> io::Result<()> {
    test_say::number(rt, b" refused", k)
}

fn found(rt: &impl Print, f: Found) -> io::Result<()> {
    match f {
        Ok(Some(j)) => say_number(rt, j as u64),
        Ok(None) => say(rt, b" -"),
        Err(k) => refused(rt, k.number()),
    }
}

fn told(rt: &impl Print, t: Told) -> io::Result<()> {
    match t {
        Ok(Some(true)) => say(rt, b" y"),
        Ok(Some(false)) => say(rt, b" n"),
        Ok(None) => say(rt, b" -"),
        Err(k) => refused(rt, k.number()),
    }
}

// ---- a position

fn searches(
    rt: &impl Print,
    words: &[u64],
    n: usize,
    nodes: &[i64],
    block: usize,
    i: usize,
) -> io::Result<()> {
    found(rt, bp::close(words, n, nodes, block, i))?;
    found(rt, bp::open(words, n, nodes, block, i))?;
    found(rt, bp::enclose(words, n, nodes, block, i))?;
    found(rt, bp::fwd_search(words, n, nodes, block, i, -2))?;
    found(rt, bp::fwd_search(words, n, nodes, block, i, 0))?;
    found(rt, bp::fwd_search(words, n, nodes, block, i, 3))?;
    found(rt, bp::bwd_search(words, n, nodes, block, i, -2))?;
    found(rt, bp::bwd_search(words, n, nodes, block, i, 0))?;
    found(rt, bp::bwd_search(words, n, nodes, block, i, 3))
}

fn around(
    rt: &impl Print,
    words: &[u64],
    n: usize,
    nodes: &[i64],
    block: usize,
    v: usize,
) -> io::Result<()> {
    found(rt, bp::parent(words, n, nodes, block, v))?;
    found(rt, bp::first_child(words, n, v))?;
    found(rt, bp::last_child(words, n, nodes, block, v))?;
    found(rt, bp::next_sibling(words, n, nodes, block, v))?;
    found(rt, bp::previous_sibling(words, n, nodes, block, v))
}

fn beside(
    rt: &impl Print,
    words: &[u64],
    n: usize,
    nodes: &[i64],
    block: usize,
    v: usize,
) -> io::Result<()> {
    found(rt, bp::level_ancestor(words, n, nodes, block, v, 1))?;
    found(rt, bp::level_ancestor(words, n, nodes, block, v, 3))?;
    found(rt, bp::level_next(words, n, nodes, block, v))?;
    found(rt, bp::level_prev(words, n, nodes, block, v))
}

// Prints an answer as `list` writes it.
fn number(rt: &impl Print, x: i64) -> io::Result<()> {
    match test_say::answer(x) {
        Ok(Some(j)) => say_number(rt, j),
        Ok(None) => say(rt, b" -"),
        Err(k) => refused(rt, k),
    }
}

fn numbers(rt: &impl Print, out: &[i64], count: usize) -> io::Result<()> {
    for &x in out.iter().take(count) {
        number(rt, x)?;
    }
    Ok(())
}

// Prints the children of v, in one direction. No outline node has more than 40 children, so `out` has room for the nothing at the end.
fn children(
    rt: &impl Print,
    words: &[u64],
    n: usize,
    nodes: &[i64],
    block: usize,
    rising: bool,
    v: usize,
) -> io::Result<()> {
    let mut out = [0i64; 64];
    match list_slice::list(words, n, nodes, block, rising, v, &mut out) {
        Ok(count) => numbers(rt, &out, count),
        Err(k) => refused(rt, k.number()),
    }
}

// Prints the answers for the outline node v. `before` is the last handle before v, or v itself if v is the first one.
fn node(
    rt: &impl Print,
    words: &[u64],
    n: usize,
    nodes: &[i64],
    block: usize,
    v: usize,
    before: usize,
) -> io::Result<()> {
    around(rt, words, n, nodes, block, v)?;
    told(rt, bp::is_leaf(words, n, v))?;
    told(rt, bp::is_ancestor(words, n, nodes, block, v, v))?;
    told(rt, bp::is_ancestor(words, n, nodes, block, before, v))?;
    beside(rt, words, n, nodes, block, v)?;
    children(rt, words, n, nodes, block, true, v)?;
    children(rt, words, n, nodes, block, false, v)
}

// Prints the line of position i. `before` is the last handle before i, if there is one. Returns the same for the position i + 1.
fn position(
    rt: &impl Print,
    words: &[u64],
    n: usize,
    nodes: &[i64],
    block: usize,
    i: usize,
    before: Option<usize>,
) -> io::Result<Option<usize>> {
    rt.print(i as u64)?;
    searches(rt, words, n, nodes, block, i)?;
    let handle = bp::admit_node(words, n, nodes, block, i).is_ok();
    if handle {
        node(rt, words, n, nodes, block, i, before.unwrap_or(i))?;
    }
    say(rt, b"\n")?;
    Ok(if handle { Some(i) } else { before })
}

fn positions(
    rt: &impl Print,
    words: &[u64],
    n: usize,
    nodes: &[i64],
    block: usize,
) -> io::Result<()> {
    let mut before = None;
    for i in 0..n {
        before = position(rt, words, n, nodes, block, i, before)?;
    }
    Ok(())
}

// ---- a level

// Prints the line of level k. Returns whether both ends of the level are nothing.
fn level(
    rt: &impl Print,
    words: &[u64],
    n: usize,
    nodes: &[i64],
    block: usize,
    k: u64,
) -> io::Result<bool> {
    let first = bp::level_leftmost(words, n, nodes, block, k);
    let last = bp::level_rightmost(words, n, nodes, block, k);
    say(rt, b"level")?;
    say_number(rt, k)?;
    found(rt, first)?;
    found(rt, last)?;
    say(rt, b"\n")?;
    Ok(first == Ok(None) && last == Ok(None))
}

// Prints the levels from 0 on, up to and with the first one whose ends are both nothing. A row of n bits has no level n.
fn levels(rt: &impl Print, words: &[u64], n: usize, nodes: &[i64], block: usize) -> io::Result<()> {
    for k in 0..n {
        if level(rt, words, n, nodes, block, k as u64)? {
            return Ok(());
        }
    }
    Ok(())
}

// ---- a row

// Prints all answers for a row of at most 512 bits. With B = 8 it has at most 64 block leaves and 63 inner nodes, so 381 entries.
fn answers(rt: &impl Print, text: &[u8], words: &[u64], n: usize, block: usize) -> io::Result<()> {
    let mut nodes = [0i64; 381];
    say(rt, b"block")?;
    say_number(rt, block as u64)?;
    say(rt, b" ")?;
    say(rt, text)?;
    say(rt, b"\n")?;
    match mmt_build::build(words, n, &mut nodes, block) {
        Ok(()) => {
            positions(rt, words, n, &nodes, block)?;
            levels(rt, words, n, &nodes, block)
        }
        Err(k) => refused(rt, k.number()),
    }
}

fn replay(rt: &impl Print, text: &[u8]) -> io::Result<()> {
    let mut words = [0u64; 8];
    match text::read_text(text, &mut words) {
        Ok(n) => {
            answers(rt, text, &words, n, 8)?;
            answers(rt, text, &words, n, 64)
        }
        Err(k) => refused(rt, k.number()),
    }
}

fn rows(rt: &impl Print, bytes: &[u8]) -> io::Result<()> {
    for line in bytes.split_inclusive(|&b| b == b'\n') {
        let end = app_line::line_end(line);
        replay(rt, &line[..end])?;
    }
    Ok(())
}

fn main(rt: HostRuntime) -> io::Result<()> {
    let mut bytes = [0; 1024];
    let count = app_line::read_full(&mut rt.reader(), &mut bytes)?;
    rows(&rt, &bytes[..count])
}
