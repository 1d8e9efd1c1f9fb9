// Prints the entries of the lookup table that SCOPE names. Runs the text reader, with its refusals and the words that it leaves, and the
// one-tree test.
use std::io;

fn entry(rt: &impl Print, b: u8) -> io::Result<()> {
    test_say::number_line(rt, b"entry", bits_lookup::entry(b) as u64)
}

// Reads a text into two words of 64 ones each. Prints the answer and the words afterwards.
fn read(rt: &impl Print, text: &[u8]) -> io::Result<()> {
    let mut words = [u64::MAX; 2];
    read_into(rt, text, &mut words)
}

fn read_into(rt: &impl Print, text: &[u8], words: &mut [u64]) -> io::Result<()> {
    test_say::line(rt, text)?;
    match text::read_text(text, words) {
        Ok(n) => test_say::number_line(rt, b"  bits", n as u64),
        Err(k) => test_say::number_line(rt, b"  refused", k.number()),
    }?;
    say_words(rt, words)
}

fn say_word(rt: &impl Print, w: u64) -> io::Result<()> {
    test_say::number_line(rt, b"  word", w)
}

fn say_words(rt: &impl Print, words: &[u64]) -> io::Result<()> {
    for w in words {
        say_word(rt, *w)?;
    }
    Ok(())
}

fn tree(rt: &impl Print, word: u64, n: usize) -> io::Result<()> {
    let words = [word; 1];
    test_say::number_line(rt, b"bits", n as u64)?;
    match one_tree::one_tree(&words, n) {
        Ok(Some(true)) => test_say::line(rt, b"  one tree"),
        Ok(Some(false)) => test_say::line(rt, b"  not one tree"),
        Ok(None) => test_say::line(rt, b"  nothing"),
        Err(k) => test_say::number_line(rt, b"  refused", k.number()),
    }
}

fn trees(rt: &impl Print) -> io::Result<()> {
    for (word, n) in [(27, 8), (1, 2), (1, 1), (1, 0), (5, 4), (9, 4), (3, 3)] {
        tree(rt, word, n)?;
    }
    tree(rt, u64::MAX, 64)?;
    tree(rt, u64::MAX, 65)?;
    tree(rt, 0xffffffff, 64)?;
    tree(rt, 1, 4294967297)
}

// Reads texts of 64, 65 and 129 parentheses: a full word, one bit more than a word, and one bit more than the two words have.
fn long_texts(rt: &impl Print) -> io::Result<()> {
    let text = [b'('; 129];
    let mut words = [0u64; 2];
    read_into(rt, &text[..64], &mut words)?;
    read_into(rt, &text[..65], &mut words)?;
    read_into(rt, &text, &mut words)
}

pub fn run(rt: &impl Print) -> io::Result<()> {
    for b in [0, 27, 255] {
        entry(rt, b)?;
    }
    read(rt, b"(()(()))")?;
    read(rt, b"")?;
    read(rt, b")")?;
    read(rt, b"x()(")?;
    read(rt, b"()x(")?;
    read(rt, b"()(x")?;
    let mut none = [0u64; 1];
    read_into(rt, b"()", &mut none[..0])?;
    read_into(rt, b"(*", &mut none[..0])?;
    read_into(rt, b"", &mut none[..0])?;
    long_texts(rt)?;
    trees(rt)
}
