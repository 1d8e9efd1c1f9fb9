// Listings over byte slices, for rows of up to 4,096 bits. The direction of a listing is a value, because C passes it.
//
// Each answer is written as eight bytes, up to and with the first `nothing`, or until fewer than eight bytes of `out` are left. Bytes after
// the answers are unchanged. A refused constructor leaves all bytes unchanged. The answers are first collected in an array; no listing of a
// 4,096-bit row has more answers than the array holds.
ghost use Rattle.std.specs.Prelude.{◌≡◌, ◌*◌, ◌/◌, ◌≤◌, length};
ghost use Rattle.row.specs.Writes.{Writes};
ghost use Rattle.wire.specs.Answer.{wire_of};
ghost use Rattle.wire.specs.Limit.{wire_bits};
ghost use Rattle.list_slice.specs.WholeListing.{count_of};
ghost use Rattle.c_listings.specs.Listings.{listed_bytes, list_wire, list_left};

// Lists into `answers`, then writes the answers to the front of `out`.
#[tactic(auto, using(crate::proofs::Listed::put_steps))]
fn put_listing(
    words: &[u64],
    n: usize,
    nodes: &[i64],
    block: usize,
    rising: bool,
    node: usize,
    answers: &mut [i64],
    out: &mut [u8],
) -> i64
    requires { 8 * length answers.old ≤ length out.old }
    ensures { Writes result (wire_of (count_of rising words.now n nodes.now block node (length answers.old)))
        out.new
        (listed_bytes rising words.now n nodes.now block node (length answers.old) out.old) }
{
    match list_slice::list(words, n, nodes, block, rising, node, answers) {
        Err(k) => wire::refused(k),
        Ok(c) => {
            wire::write(&answers[..c], out);
            c as i64
        }
    }
}

// Lists over decoded words and node numbers, and writes the answers to `out`.
#[tactic(auto, using(std::proofs::lemmas::Grind::common_steps, crate::proofs::Listed::count_cut, crate::proofs::Listed::bytes_cut))]
fn list_decoded(
    words: &[u64],
    bits: u64,
    nodes: &[i64],
    block: usize,
    rising: bool,
    node: usize,
    out: &mut [u8],
) -> i64
    ensures { Writes result (wire_of (count_of rising words.now (wire_bits bits) nodes.now block node (length out.old / 8)))
        out.new
        (listed_bytes rising words.now (wire_bits bits) nodes.now block node (length out.old / 8) out.old) }
{
    // An array of fixed size and no `Vec`: a C function is passed no allocator.
    let mut answers = [0i64; wire::ANSWERS];
    let c = wire::fitting(out.len(), wire::ANSWERS);
    put_listing(
        words,
        wire::bits(bits),
        nodes,
        block,
        rising,
        node,
        &mut answers[..c],
        out,
    )
}

// Writes the children of `node` to `out`, rising or falling. Returns the number of answers written, or the refusal.
pub fn to_bytes(
    row: &[u8],
    bits: u64,
    nodes: &[u8],
    block: u64,
    rising: bool,
    node: u64,
    out: &mut [u8],
) -> i64
    ensures { Writes result (list_wire rising row.now bits nodes.now block node out.old)
        out.new (list_left rising row.now bits nodes.now block node out.old) }
{
    // Arrays of fixed size and no `Vec`: a C function is passed no allocator.
    let mut words = [0u64; wire::WORDS];
    let mut numbers = [0i64; wire::NUMBERS];
    let w = wire::take(row, &mut words);
    let m = wire::take(nodes, &mut numbers);
    list_decoded(
        &words[..w],
        bits,
        &numbers[..m],
        block as usize,
        rising,
        node as usize,
        out,
    )
}
