// The four functions that the host of the vault calls: build, close, enclose and is_ancestor, over byte slices, for rows of up to 4,096 bits.
//
// The passed bytes are decoded into arrays, as much as fits; no row of 4,096 bits needs more. A call over the arrays then tests and answers.
// A row of more than 4,096 bits is refusal 2. Only a successful build writes.
#![tactic(auto)]

ghost use Rattle.std.specs.Prelude.{◌≡◌};
ghost use Rattle.row.specs.Writes.{Writes};
ghost use Rattle.bp_spec.specs.declared.question.Question.TheVariants.{Close, Enclose, IsAncestor};
ghost use Rattle.bp_spec.specs.Questions.{promised};
ghost use Rattle.c_dispatch.specs.Bytes.{byte_answer};
ghost use Rattle.capi.specs.Build.{build_wire, built_bytes};

use bp_spec::Question;
use c_dispatch::Request;

mod call;

// Builds the min-max nodes of the row and writes them to `nodes`. Bytes after the nodes are unchanged; a refusal leaves all bytes unchanged.
#[tactic(auto, using(crate::proofs::Passed::bytes_steps))]
#[unsafe(no_mangle)]
pub extern "C" fn bp_build(row: &[u8], bits: u64, nodes: &mut [u8], block: u64) -> i64
    ensures { Writes result (build_wire row.now bits nodes.old block)
        nodes.new (built_bytes row.now bits nodes.old block) }
{
    // Arrays of fixed size and no `Vec`: a C function is passed no allocator.
    let mut words = [0u64; wire::WORDS];
    let mut numbers = [0i64; wire::NUMBERS];
    let w = wire::take(row, &mut words);
    let m = wire::fitting(nodes.len(), wire::NUMBERS);
    call::build(
        &words[..w],
        wire::bits(bits),
        &mut numbers[..m],
        block as usize,
        nodes,
    )
}

// Answers `close(at)` for any position.
#[unsafe(no_mangle)]
pub extern "C" fn bp_close(row: &[u8], bits: u64, nodes: &[u8], block: u64, at: u64) -> i64
    ensures { result ≡ byte_answer promised row.now bits nodes.now block (Close at) }
{
    c_dispatch::over_bytes(
        row,
        bits,
        nodes,
        block,
        Request::Call(Question::Close(at as usize)),
    )
}

// Answers `enclose(at)` for any position.
#[unsafe(no_mangle)]
pub extern "C" fn bp_enclose(row: &[u8], bits: u64, nodes: &[u8], block: u64, at: u64) -> i64
    ensures { result ≡ byte_answer promised row.now bits nodes.now block (Enclose at) }
{
    c_dispatch::over_bytes(
        row,
        bits,
        nodes,
        block,
        Request::Call(Question::Enclose(at as usize)),
    )
}

// Answers `is_ancestor(ancestor, descendant)`: 1 or 0, or nothing if the ancestor has no close.
#[unsafe(no_mangle)]
pub extern "C" fn bp_is_ancestor(
    row: &[u8],
    bits: u64,
    nodes: &[u8],
    block: u64,
    ancestor: u64,
    descendant: u64,
) -> i64
    ensures { result ≡ byte_answer promised row.now bits nodes.now block (IsAncestor ancestor descendant) }
{
    c_dispatch::over_bytes(
        row,
        bits,
        nodes,
        block,
        Request::Call(Question::IsAncestor(ancestor as usize, descendant as usize)),
    )
}
