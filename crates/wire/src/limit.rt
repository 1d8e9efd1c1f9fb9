// The limits on what crosses the C boundary as bytes.
ghost use Rattle.std.specs.Prelude.{◌≡◌};
ghost use Rattle.wire.specs.Limit.{wire_bits, fit};

// The number of words that 4,096 bits need.
pub const WORDS: usize = 64;

// The node numbers that 4,096 bits need in blocks of 8: three for each of 512 block leaves and 511 inner nodes.
pub const NUMBERS: usize = 3069;

// The most answers that a listing over 4,096 bits has. Each step moves on by at least one bit; then a refusal and a nothing may follow.
pub const ANSWERS: usize = 4098;

// Returns the bit count that a call gets. A count above 4,096 becomes 2^32 + 1, so the call itself refuses it by 2, at the right
// place in the order of its tests.
pub fn bits(bits: u64) -> usize
    ensures { result ≡ wire_bits bits }
{
    if (row::MAX_SHORT_BITS as u64) < bits {
        return row::MAX_BITS + 1;
    }
    bits as usize
}

// Returns how many words or numbers the bytes hold, at most `room`.
pub fn fitting(bytes: usize, room: usize) -> usize
    ensures { result ≡ fit bytes room }
{
    (bytes / 8).min(room)
}
