// The reasons for which a call refuses, with their numbers (SCOPE, Refusals).
ghost use Rattle.std.specs.Prelude.{◌≡◌};
ghost use Rattle.row.specs.Answer.{number_of};

#[derive(Clone, Copy, Debug, PartialEq, Eq)]
pub enum Refusal {
    BlockSize = 1,
    TooManyBits = 2,
    TooFewWords = 3,
    TooFewNodes = 4,
    NotAHandle = 5,
    NotAParenthesis = 6,
    NotOneTree = 7,
    NodesMisfit = 8,
}

impl Refusal {
    // Returns the number of the refusal.
    pub fn number(self) -> u64
        ensures { result ≡ number_of self }
    {
        self as u64
    }
}
