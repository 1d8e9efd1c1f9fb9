// Reads the input of a program into a buffer.
ghost use Rattle.std.specs.Prelude.{◌≡◌, IfOk, IfSome, OnErr, length, take};
ghost use Rattle.io.specs.Counts.{IsPrefixLen};

use std::io::{Read, Result};

// Reads until the buffer is full or the input ends. Returns how many bytes were read. If the bytes that the input has left are known, these
// are the first of them.
pub fn read_full<R: Read>(input: &mut R, bytes: &mut [u8]) -> Result<usize>
    ensures prefix_len { IfOk result (λ n. IsPrefixLen n bytes.new) }
    ensures value { IfOk result (λ n. IfSome (R.remaining input.old)
        (λ xs. take n bytes.new ≡ take (length bytes.old) xs)) }
    ensures failed { OnErr result (length bytes.new ≡ length bytes.old) }
{
    let mut done = 0;
    // No range counts these reads: each one fills a part of a length that only the reader knows.
    while done < bytes.len() {
        let count = input.read(&mut bytes[done..])?;
        if count == 0 {
            return Ok(done);
        }
        done += count;
    }
    Ok(done)
}
