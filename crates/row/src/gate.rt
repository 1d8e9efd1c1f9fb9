// The gates of a row and of a handle. Their tests come in the order 2, 3, 5 (SCOPE, Refusals).
ghost use Rattle.std.specs.Prelude.{◌≡◌, length, IfOk};
ghost use Rattle.row.specs.Gates.{words_for, row_gate, handle_gate, gate_of};
ghost use Rattle.row.specs.Parts.{HasBits};
ghost use Rattle.row.specs.Tree.{opens, closes};

use crate::bits::opens_at;
use crate::limit::MAX_BITS;
use crate::refusal::Refusal;
use crate::row::Row;

// Returns the number of words that n bits need.
pub fn words_for(n: usize) -> usize
    ensures { result ≡ words_for n }
{
    n.div_ceil(64)
}

// Tests a row of n bits in `words` words: refusal 2, then refusal 3.
#[tactic(auto, unfolding(crate::specs::Gates::row_gate))]
pub fn admit_row(words: usize, n: usize) -> Result<(), Refusal>
    ensures { result ≡ row_gate words n }
{
    if MAX_BITS < n {
        return Err(Refusal::TooManyBits);
    }
    if words < words_for(n) {
        return Err(Refusal::TooFewWords);
    }
    Ok(())
}

impl<'a> Row<'a> {
    // Makes tests 2 and 3 in their order.
    #[tactic(auto, using(crate::proofs::Gates::row_fits))]
    pub fn new(words: &'a [u64], n: usize) -> Result<Row<'a>, Refusal>
        ensures gate { gate_of result ≡ row_gate (length words.now) n }
        ensures parts { IfOk result (HasBits words.now n) }
    {
        admit_row(words.len(), n)?;
        Ok(Row { words, n })
    }

    // Tests whether position i is an open bit of the row.
    #[tactic(auto, unfolding(crate::specs::Tree::opens))]
    pub fn opens(self, i: usize) -> bool
        ensures { result ≡ opens self.entry.words.now self.entry.n i }
    {
        i < self.n && opens_at(self.words, i)
    }

    // Tests whether position i is a close bit of the row.
    #[tactic(auto, unfolding(crate::specs::Tree::closes))]
    pub fn closes(self, i: usize) -> bool
        ensures { result ≡ closes self.entry.words.now self.entry.n i }
    {
        i < self.n && !opens_at(self.words, i)
    }

    // Tests whether v is a handle: refusal 5.
    #[tactic(auto, unfolding(crate::specs::Gates::handle_gate))]
    pub fn admit_handle(self, v: usize) -> Result<(), Refusal>
        ensures { result ≡ handle_gate self.entry.words.now self.entry.n v }
    {
        if self.opens(v) {
            return Ok(());
        }
        Err(Refusal::NotAHandle)
    }
}
