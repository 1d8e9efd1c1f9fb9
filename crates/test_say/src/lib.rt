// Prints numbers, texts and answers for the test programs.
#![tactic(auto)]

ghost use Rattle.std.specs.Prelude.{◌≡◌};
ghost use Rattle.test_say.specs.Said.{answer_of};

use std::io;

// Prints a label and a number, without ending the line.
pub fn number(rt: &impl Print, label: &[u8], n: u64) -> io::Result<()> {
    rt.write_all(label)?;
    rt.write_all(b" ")?;
    rt.print(n)
}

// Prints a text and ends the line.
pub fn line(rt: &impl Print, text: &[u8]) -> io::Result<()> {
    rt.write_all(text)?;
    rt.write_all(b"\n")
}

// Prints a label and a number, and ends the line.
pub fn number_line(rt: &impl Print, label: &[u8], n: u64) -> io::Result<()> {
    number(rt, label, n)?;
    line(rt, b"")
}

// Reads back an answer as `list` writes it: a position, -1 for nothing, or -1 - k for refusal k. The error is the number k.
pub fn answer(x: i64) -> Result<Option<u64>, u64>
    ensures { result ≡ answer_of x }
{
    match x {
        0.. => Ok(Some(x as u64)),
        -1 => Ok(None),
        _ => Err((-1 - x) as u64),
    }
}
