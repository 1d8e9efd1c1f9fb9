// The reader of parenthesis text: each byte `(` becomes an open bit, each byte `)` a close bit (SCOPE, The text reader).
//
// The reader tests the whole text before it writes the first word. The tests are refusal 2 for too many bytes, 6 for a byte that
// is no parenthesis, then 3 for too few words. On refusal all words are unchanged. On success the words that the bits need are
// written, their unused bits are 0, and the words after them are unchanged.
#![tactic(auto)]

ghost use Rattle.std.specs.Prelude.{◌≡◌, ◌++◌, ◌*◌, ◌≤◌, ◌<◌, length, drop};
ghost use Rattle.row.specs.Limits.{max_words};
ghost use Rattle.row.specs.Writes.{Writes};
ghost use Rattle.row.specs.Answer.{paper_read};
ghost use Rattle.text.specs.Text.{is_parenthesis, all_parentheses, text_bit, word_of, words_of, text_gate, read_answer, text_words};

use row::Refusal;

fn is_parenthesis(b: u8) -> bool
    ensures { result ≡ is_parenthesis b }
{
    matches!(b, b'(' | b')')
}

#[tactic(auto, unfolding(crate::specs::Text::all_parentheses))]
fn all_parentheses(text: &[u8]) -> bool
    ensures { result ≡ all_parentheses text.now }
{
    text.iter().all(|b| is_parenthesis(*b))
}

// Returns bit i of the text: 1 if byte i is `(`, otherwise 0. It is also 0 past the end of the text.
fn text_bit(text: &[u8], i: usize) -> u64
    ensures { result ≡ text_bit text.now i }
{
    match text.get(i) {
        Some(b'(') => 1,
        _ => 0,
    }
}

// Returns word k of the text: bits 64k to 64k + 63. It goes from the last bit to the first, so each step doubles and adds one bit.
fn word_of(text: &[u8], k: usize) -> u64
    requires { k ≤ max_words }
    ensures { result ≡ word_of text.now k }
{
    let mut w = 0;
    for j in (0..64).rev() {
        w = text_bit(text, 64 * k + j) + 2 * w;
    }
    w
}

// Writes the words of the text, as many as `words` has room for.
fn write_words(text: &[u8], words: &mut [u64])
    requires { length words.old ≤ max_words }
    ensures { words.new ≡ words_of text.now (length words.old) }
{
    for (k, word) in words.iter_mut().enumerate() {
        *word = word_of(text, k);
    }
}

// Tests a text that is to go into `words` words: refusal 2, then 6, then 3.
fn admit_text(text: &[u8], words: usize) -> Result<(), Refusal>
    ensures { result ≡ text_gate text.now words }
{
    let n = text.len();
    if row::MAX_BITS < n {
        return Err(Refusal::TooManyBits);
    }
    if !all_parentheses(text) {
        return Err(Refusal::NotAParenthesis);
    }
    row::admit_row(words, n)
}

// Reads a text into words. Returns the bit count, or refusal 2, 6 or 3.
pub fn read_text(text: &[u8], words: &mut [u64]) -> Result<usize, Refusal>
    ensures { Writes (paper_read result) (read_answer text.now words.old)
        words.new (text_words text.now words.old) }
{
    admit_text(text, words.len())?;
    let n = text.len();
    write_words(text, &mut words[..row::words_for(n)]);
    Ok(n)
}
