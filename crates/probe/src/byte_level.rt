// The calls on levels over byte slices, for rows of up to 4,096 bits.
//
// Each function makes one request. Its promise is that of the call, over the words and node numbers that the bytes encode.
ghost use Rattle.std.specs.Prelude.{◌≡◌};
ghost use Rattle.bp_spec.specs.declared.question.Question.TheVariants.{LevelAncestor, LevelNext, LevelPrev, LevelLeftmost, LevelRightmost};
ghost use Rattle.bp_spec.specs.Questions.{promised};
ghost use Rattle.c_dispatch.specs.Bytes.{byte_answer};

use bp_spec::Question;
use c_dispatch::Request;

// Answers `level_ancestor(node, level)`.
#[unsafe(no_mangle)]
pub extern "C" fn bp_level_ancestor(
    row: &[u8],
    bits: u64,
    nodes: &[u8],
    block: u64,
    node: u64,
    level: u64,
) -> i64
    ensures { result ≡ byte_answer promised row.now bits nodes.now block (LevelAncestor node level) }
{
    c_dispatch::over_bytes(
        row,
        bits,
        nodes,
        block,
        Request::Call(Question::LevelAncestor(node as usize, level)),
    )
}

// Answers `level_next(node)`.
#[unsafe(no_mangle)]
pub extern "C" fn bp_level_next(row: &[u8], bits: u64, nodes: &[u8], block: u64, node: u64) -> i64
    ensures { result ≡ byte_answer promised row.now bits nodes.now block (LevelNext node) }
{
    c_dispatch::over_bytes(
        row,
        bits,
        nodes,
        block,
        Request::Call(Question::LevelNext(node as usize)),
    )
}

// Answers `level_prev(node)`.
#[unsafe(no_mangle)]
pub extern "C" fn bp_level_prev(row: &[u8], bits: u64, nodes: &[u8], block: u64, node: u64) -> i64
    ensures { result ≡ byte_answer promised row.now bits nodes.now block (LevelPrev node) }
{
    c_dispatch::over_bytes(
        row,
        bits,
        nodes,
        block,
        Request::Call(Question::LevelPrev(node as usize)),
    )
}

// Answers `level_leftmost(level)`.
#[unsafe(no_mangle)]
pub extern "C" fn bp_level_leftmost(
    row: &[u8],
    bits: u64,
    nodes: &[u8],
    block: u64,
    level: u64,
) -> i64
    ensures { result ≡ byte_answer promised row.now bits nodes.now block (LevelLeftmost level) }
{
    c_dispatch::over_bytes(
        row,
        bits,
        nodes,
        block,
        Request::Call(Question::LevelLeftmost(level)),
    )
}

// Answers `level_rightmost(level)`.
#[unsafe(no_mangle)]
pub extern "C" fn bp_level_rightmost(
    row: &[u8],
    bits: u64,
    nodes: &[u8],
    block: u64,
    level: u64,
) -> i64
    ensures { result ≡ byte_answer promised row.now bits nodes.now block (LevelRightmost level) }
{
    c_dispatch::over_bytes(
        row,
        bits,
        nodes,
        block,
        Request::Call(Question::LevelRightmost(level)),
    )
}
