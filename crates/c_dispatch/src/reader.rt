// The reader of parenthesis text over byte slices. It tests refusals 2, 6 and 3, in this order, before it writes.
ghost use Rattle.std.specs.Prelude.{◌≡◌, ◌*◌, ◌≤◌, length};
ghost use Rattle.row.specs.Writes.{Writes};
ghost use Rattle.row.specs.Answer.{at};
ghost use Rattle.row.specs.Gates.{through};
ghost use Rattle.text.specs.Text.{text_gate};
ghost use Rattle.wire.specs.Answer.{wire_of};
ghost use Rattle.c_dispatch.specs.Reader.{left_row, read_wire, read_bytes};

use row::Refusal;

// Reads the text into `words`, then writes the words that the bits need to the front of `row`.
#[tactic(auto, using(crate::proofs::Reading::through_steps))]
fn read_through(text: &[u8], words: &mut [u64], row: &mut [u8]) -> i64
    requires { 8 * length words.old ≤ length row.old }
    ensures { Writes result (wire_of (through (text_gate text.now (length words.old)) (at (length text.now))))
        row.new (left_row (text_gate text.now (length words.old)) text.now row.old) }
{
    match text::read_text(text, words) {
        Err(k) => wire::refused(k),
        Ok(n) => {
            wire::write(&words[..row::words_for(n)], row);
            n as i64
        }
    }
}

// Reads a text of at most 4,096 bytes into `row` and returns the bit count. Bytes after the needed words are unchanged; a refusal leaves all
// bytes unchanged.
#[tactic(auto, using(crate::proofs::Reading::text_steps))]
pub fn read_text(text: &[u8], row: &mut [u8]) -> i64
    ensures { Writes result (read_wire text.now row.old)
        row.new (read_bytes text.now row.old) }
{
    if row::MAX_SHORT_BITS < text.len() {
        return wire::refused(Refusal::TooManyBits);
    }
    // An array of fixed size and no `Vec`: a C function is passed no allocator.
    let mut words = [0u64; wire::WORDS];
    let w = wire::fitting(row.len(), wire::WORDS);
    read_through(text, &mut words[..w], row)
}
