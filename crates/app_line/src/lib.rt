// Reads one line of parentheses for the program `levels`: finds the text, tests refusals 2, 6 and 7 in this order, and fills the words.
//
// This crate prints nothing. So its promises state what is refused, and in which order, without any page. `test_replay` uses `line_end` too.
#![tactic(auto)]

ghost use Rattle.std.specs.Prelude.{◌≡◌, length};
ghost use Rattle.row.specs.Writes.{Writes};
ghost use Rattle.io.specs.Counts.{IsPrefixLen};
ghost use Rattle.row.specs.Answer.{paper_read};
ghost use Rattle.app_line.specs.Input.{line_end, line_answer, line_words, Admits, input_answer};

mod input;

pub use input::read_full;
use row::Refusal;

// Returns the index of the first newline, or the length if there is none.
pub fn line_end(bytes: &[u8]) -> usize
    // Two clauses: the prover reads `IsPrefixLen` by itself where a caller takes a part of the bytes.
    ensures prefix_len { IsPrefixLen result bytes.now }
    ensures value { result ≡ line_end bytes.now }
{
    bytes
        .iter()
        .position(|&b| b == b'\n')
        .unwrap_or(bytes.len())
}

// Reads the text of the line into the words, with refusals 2 and 6. The program passes at most 4,097 bytes: 4,097 bytes without a newline are
// refusal 2, whatever they are.
#[tactic(auto, using(crate::proofs::Line::line_steps))]
fn read_line(bytes: &[u8], words: &mut [u64; 64]) -> Result<usize, Refusal>
    ensures { Writes (paper_read result) (line_answer bytes.now)
        words.new (line_words bytes.now words.old) }
{
    let end = line_end(bytes);
    if row::MAX_SHORT_BITS < end {
        return Err(Refusal::TooManyBits);
    }
    text::read_text(&bytes[..end], words)
}

// Refuses a row that is not one tree by 7. The second promise states the length of the array: the proof of `read_tree` needs it and can take it
// only from here.
#[tactic(auto, using(crate::proofs::Line::tree_refused))]
fn admit_tree(words: &[u64; 64], n: usize) -> Result<usize, Refusal>
    ensures { Admits (paper_read result) words.now n }
{
    if one_tree::one_tree(words, n)? == Some(true) {
        return Ok(n);
    }
    Err(Refusal::NotOneTree)
}

// Reads one tree into the words. Returns its number of bits, or the refusal.
#[tactic(auto, using(crate::proofs::Line::input_steps))]
pub fn read_tree(bytes: &[u8], words: &mut [u64; 64]) -> Result<usize, Refusal>
    ensures { Writes (paper_read result) (input_answer bytes.now words.old)
        words.new (line_words bytes.now words.old) }
{
    let n = read_line(bytes, words)?;
    admit_tree(words, n)
}
