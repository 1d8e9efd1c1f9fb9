// Listings over words and numbers, for rows of up to 2^32 bits, without a copy.
//
// The answer of each step is written, up to and with the first `nothing`, or until `out` is full. Entries after the answers are unchanged.
// A refused constructor leaves all entries unchanged.
ghost use Rattle.std.specs.Prelude.{◌≡◌, length};
ghost use Rattle.row.specs.Writes.{Writes};
ghost use Rattle.wire.specs.Answer.{wire_of};
ghost use Rattle.list_slice.specs.WholeListing.{count_of, left_of};

// Writes the children of `node` to `out`, rising or falling. Returns the number of answers written, or the refusal.
#[tactic(auto, using(crate::proofs::Listed::count_low))]
pub fn to_numbers(
    words: &[u64],
    bits: u64,
    nodes: &[i64],
    block: u64,
    rising: bool,
    node: u64,
    out: &mut [i64],
) -> i64
    ensures { Writes result (wire_of (count_of rising words.now bits nodes.now block node (length out.old)))
        out.new (left_of rising words.now bits nodes.now block node out.old) }
{
    // Makes the i64 here: `wire::read` takes values up to 2^32 only, and a count is only known to be at most 2^32 + 2.
    match list_slice::list(
        words,
        bits as usize,
        nodes,
        block as usize,
        rising,
        node as usize,
        out,
    ) {
        Ok(c) => c as i64,
        Err(k) => wire::refused(k),
    }
}
