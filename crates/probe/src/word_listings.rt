// The listings over words and numbers, for rows of up to 2^32 bits, without a copy.
//
// Each function makes one call and has the promise of that call. The answer of each step is written, up to and with the first `nothing`, or
// until `out` is full. Entries after the answers are unchanged. A refused constructor leaves all entries unchanged.
ghost use Rattle.std.specs.Prelude.{◌≡◌, true, false, length};
ghost use Rattle.row.specs.Writes.{Writes};
ghost use Rattle.wire.specs.Answer.{wire_of};
ghost use Rattle.list_slice.specs.WholeListing.{count_of, left_of};

// Writes the children of `node` from the first to the last. Returns the number of answers written, or the refusal.
#[unsafe(no_mangle)]
pub extern "C" fn bpw_children(
    words: &[u64],
    bits: u64,
    nodes: &[i64],
    block: u64,
    node: u64,
    out: &mut [i64],
) -> i64
    ensures { Writes result (wire_of (count_of true words.now bits nodes.now block node (length out.old)))
        out.new (left_of true words.now bits nodes.now block node out.old) }
{
    c_listings::to_numbers(words, bits, nodes, block, true, node, out)
}

// Writes the children of `node` from the last to the first. Returns the number of answers written, or the refusal.
#[unsafe(no_mangle)]
pub extern "C" fn bpw_rev_children(
    words: &[u64],
    bits: u64,
    nodes: &[i64],
    block: u64,
    node: u64,
    out: &mut [i64],
) -> i64
    ensures { Writes result (wire_of (count_of false words.now bits nodes.now block node (length out.old)))
        out.new (left_of false words.now bits nodes.now block node out.old) }
{
    c_listings::to_numbers(words, bits, nodes, block, false, node, out)
}
