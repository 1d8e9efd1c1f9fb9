// The calls on outline nodes over byte slices, for rows of up to 4,096 bits.
//
// Each function makes one request. Its promise is that of the call, over the words and node numbers that the bytes encode.
ghost use Rattle.std.specs.Prelude.{◌≡◌};
ghost use Rattle.bp_spec.specs.declared.question.Question.TheVariants.{Root, FirstChild, IsLeaf, Parent, LastChild, NextSibling, PreviousSibling};
ghost use Rattle.bp_spec.specs.Questions.{promised};
ghost use Rattle.c_dispatch.specs.Bytes.{byte_answer, row_answer};

use bp_spec::Question;
use c_dispatch::Request;

// Answers `root()`: 0, or nothing on an empty row.
#[unsafe(no_mangle)]
pub extern "C" fn bp_root(row: &[u8], bits: u64) -> i64
    ensures { result ≡ row_answer promised row.now bits Root }
{
    c_dispatch::over_row(row, bits, Request::Call(Question::Root))
}

// Answers `first_child(node)`.
#[unsafe(no_mangle)]
pub extern "C" fn bp_first_child(row: &[u8], bits: u64, node: u64) -> i64
    ensures { result ≡ row_answer promised row.now bits (FirstChild node) }
{
    c_dispatch::over_row(
        row,
        bits,
        Request::Call(Question::FirstChild(node as usize)),
    )
}

// Answers `is_leaf(node)`: 1 or 0.
#[unsafe(no_mangle)]
pub extern "C" fn bp_is_leaf(row: &[u8], bits: u64, node: u64) -> i64
    ensures { result ≡ row_answer promised row.now bits (IsLeaf node) }
{
    c_dispatch::over_row(row, bits, Request::Call(Question::IsLeaf(node as usize)))
}

// Answers `parent(node)`.
#[unsafe(no_mangle)]
pub extern "C" fn bp_parent(row: &[u8], bits: u64, nodes: &[u8], block: u64, node: u64) -> i64
    ensures { result ≡ byte_answer promised row.now bits nodes.now block (Parent node) }
{
    c_dispatch::over_bytes(
        row,
        bits,
        nodes,
        block,
        Request::Call(Question::Parent(node as usize)),
    )
}

// Answers `last_child(node)`.
#[unsafe(no_mangle)]
pub extern "C" fn bp_last_child(row: &[u8], bits: u64, nodes: &[u8], block: u64, node: u64) -> i64
    ensures { result ≡ byte_answer promised row.now bits nodes.now block (LastChild node) }
{
    c_dispatch::over_bytes(
        row,
        bits,
        nodes,
        block,
        Request::Call(Question::LastChild(node as usize)),
    )
}

// Answers `next_sibling(node)`.
#[unsafe(no_mangle)]
pub extern "C" fn bp_next_sibling(row: &[u8], bits: u64, nodes: &[u8], block: u64, node: u64) -> i64
    ensures { result ≡ byte_answer promised row.now bits nodes.now block (NextSibling node) }
{
    c_dispatch::over_bytes(
        row,
        bits,
        nodes,
        block,
        Request::Call(Question::NextSibling(node as usize)),
    )
}

// Answers `previous_sibling(node)`.
#[unsafe(no_mangle)]
pub extern "C" fn bp_previous_sibling(
    row: &[u8],
    bits: u64,
    nodes: &[u8],
    block: u64,
    node: u64,
) -> i64
    ensures { result ≡ byte_answer promised row.now bits nodes.now block (PreviousSibling node) }
{
    c_dispatch::over_bytes(
        row,
        bits,
        nodes,
        block,
        Request::Call(Question::PreviousSibling(node as usize)),
    )
}
