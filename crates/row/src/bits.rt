// Reads one bit or one byte of a row.
ghost use Rattle.std.specs.Prelude.{◌≡◌, ◌*◌, ◌/◌, ◌%◌, ◌^◌, ◌<◌, eqb, length};
ghost use Rattle.row.specs.Bits.{bit_at, byte_at};

// Tests whether bit i is an open bit.
pub fn opens_at(words: &[u64], i: usize) -> bool
    requires { i < 64 * length words.now }
    ensures { result ≡ eqb (bit_at words.now i) 1 }
{
    (words[i / 64] >> (i % 64)) % 2 == 1
}

// Returns byte k of a word, counted from the least significant byte.
pub fn byte_of(word: u64, k: usize) -> u8
    requires { k < 8 }
    ensures { result ≡ word / 2 ^ (8 * k) % 256 }
{
    word.to_le_bytes()[k]
}

// Returns byte q of a row. No byte crosses a word boundary, so one word is read.
pub fn byte(words: &[u64], q: usize) -> u8
    requires { q < 8 * length words.now }
    ensures { result ≡ byte_at words.now q }
{
    byte_of(words[q / 8], q % 8)
}
