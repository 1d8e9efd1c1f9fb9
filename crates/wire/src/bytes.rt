// What crosses the C boundary in eight bytes, the least significant byte first: a row word, or a signed number in two's complement.
ghost use Rattle.std.specs.Prelude.{◌≡◌, List, ℕ, length, take, drop, refl};
ghost use Rattle.wire.specs.Bytes.{word_at, number_at, eight, eight_signed};
ghost use Rattle.wire.specs.Places.{word_anywhere, number_anywhere};

// A value that crosses in eight bytes.
pub trait EightBytes: Copy {
    // The value in the eight bytes from a position on.
    ghost value_at: { List ℕ → ℕ → Self };

    // The eight bytes of a value.
    ghost bytes: { Self → List ℕ };

    // Returns the value in eight bytes.
    fn from_bytes(b: [u8; 8]) -> Self
        ensures { result ≡ value_at b 0 };

    // Returns the eight bytes of a value.
    fn to_bytes(self) -> [u8; 8]
        ensures { result ≡ bytes self };

    // A value has eight bytes.
    ghost long: { (x : Self) → length (bytes x) ≡ 8 };

    // The value in eight bytes depends on no other bytes.
    ghost anywhere: { (s : List ℕ) (i : ℕ) → value_at (take 8 (drop i s)) 0 ≡ value_at s i };
}

impl EightBytes for u64 {
    ghost value_at = { word_at };

    ghost bytes = { eight };

    ghost long = { λ x. refl };

    ghost anywhere = { word_anywhere };

    fn from_bytes(b: [u8; 8]) -> u64 {
        u64::from_le_bytes(b)
    }

    fn to_bytes(self) -> [u8; 8] {
        self.to_le_bytes()
    }
}

impl EightBytes for i64 {
    ghost value_at = { number_at };

    ghost bytes = { eight_signed };

    ghost long = { λ x. refl };

    ghost anywhere = { number_anywhere };

    fn from_bytes(b: [u8; 8]) -> i64 {
        i64::from_le_bytes(b)
    }

    fn to_bytes(self) -> [u8; 8] {
        self.to_le_bytes()
    }
}
