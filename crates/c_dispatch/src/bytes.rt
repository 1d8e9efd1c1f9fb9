// The calls over byte slices, for rows of up to 4,096 bits.
ghost use Rattle.std.specs.Prelude.{◌≡◌};
ghost use Rattle.c_dispatch.specs.Requests.{requested};
ghost use Rattle.c_dispatch.specs.Bytes.{byte_answer, row_answer};

use crate::request::{Request, answer};

// Decodes the row and the node buffer into arrays, as much as fits, and answers the request. A row of more than 4,096 bits is refusal 2.
pub fn over_bytes(row: &[u8], bits: u64, nodes: &[u8], block: u64, request: Request) -> i64
    ensures { result ≡ byte_answer requested row.now bits nodes.now block request }
{
    // Arrays of fixed size and no `Vec`: a C function is passed no allocator.
    let mut words = [0u64; wire::WORDS];
    let mut numbers = [0i64; wire::NUMBERS];
    let w = wire::take(row, &mut words);
    let m = wire::take(nodes, &mut numbers);
    answer(
        &words[..w],
        wire::bits(bits),
        &numbers[..m],
        block as usize,
        request,
    )
}

// Answers a request that needs no node buffer.
#[tactic(auto, unfolding(wire::specs::Bytes::tabulate))]
pub fn over_row(row: &[u8], bits: u64, request: Request) -> i64
    ensures { result ≡ row_answer requested row.now bits request }
{
    over_bytes(row, bits, &row[..0], 0, request)
}
