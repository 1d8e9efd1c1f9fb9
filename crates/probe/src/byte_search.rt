// The searches over byte slices, for rows of up to 4,096 bits.
//
// Each function makes one request. Its promise is that of the call, over the words and node numbers that the bytes encode.
ghost use Rattle.std.specs.Prelude.{◌≡◌};
ghost use Rattle.bp_spec.specs.declared.question.Question.TheVariants.{FwdSearch, BwdSearch, Open};
ghost use Rattle.bp_spec.specs.Questions.{promised};
ghost use Rattle.c_dispatch.specs.Bytes.{byte_answer};

use bp_spec::Question;
use c_dispatch::Request;

// Answers `fwd_search(at, r)`.
#[unsafe(no_mangle)]
pub extern "C" fn bp_fwd_search(
    row: &[u8],
    bits: u64,
    nodes: &[u8],
    block: u64,
    at: u64,
    r: i64,
) -> i64
    ensures { result ≡ byte_answer promised row.now bits nodes.now block (FwdSearch at r) }
{
    c_dispatch::over_bytes(
        row,
        bits,
        nodes,
        block,
        Request::Call(Question::FwdSearch(at as usize, r)),
    )
}

// Answers `bwd_search(at, r)`.
#[unsafe(no_mangle)]
pub extern "C" fn bp_bwd_search(
    row: &[u8],
    bits: u64,
    nodes: &[u8],
    block: u64,
    at: u64,
    r: i64,
) -> i64
    ensures { result ≡ byte_answer promised row.now bits nodes.now block (BwdSearch at r) }
{
    c_dispatch::over_bytes(
        row,
        bits,
        nodes,
        block,
        Request::Call(Question::BwdSearch(at as usize, r)),
    )
}

// Answers `open(at)` for any position.
#[unsafe(no_mangle)]
pub extern "C" fn bp_open(row: &[u8], bits: u64, nodes: &[u8], block: u64, at: u64) -> i64
    ensures { result ≡ byte_answer promised row.now bits nodes.now block (Open at) }
{
    c_dispatch::over_bytes(
        row,
        bits,
        nodes,
        block,
        Request::Call(Question::Open(at as usize)),
    )
}
