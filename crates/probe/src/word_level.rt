// The calls on levels over words and numbers, for rows of up to 2^32 bits, without a copy.
//
// Each function makes one call and has the promise of that call.
ghost use Rattle.std.specs.Prelude.{◌≡◌};
ghost use Rattle.bp_spec.specs.HandleCalls.{node_answer};
ghost use Rattle.bp_spec.specs.LevelCalls.{level_ancestor, level_next, level_prev};
ghost use Rattle.bp_spec.specs.LevelEnds.{level_leftmost, level_answer, rightmost_answer};
ghost use Rattle.wire.specs.Answer.{wire_of};

// Answers `level_ancestor(node, level)`.
#[unsafe(no_mangle)]
pub extern "C" fn bpw_level_ancestor(
    words: &[u64],
    bits: u64,
    nodes: &[i64],
    block: u64,
    node: u64,
    level: u64,
) -> i64
    ensures { result ≡ wire_of (node_answer (level_ancestor level) words.now bits nodes.now block node) }
{
    wire::found(bp::level_ancestor(
        words,
        bits as usize,
        nodes,
        block as usize,
        node as usize,
        level,
    ))
}

// Answers `level_next(node)`.
#[unsafe(no_mangle)]
pub extern "C" fn bpw_level_next(
    words: &[u64],
    bits: u64,
    nodes: &[i64],
    block: u64,
    node: u64,
) -> i64
    ensures { result ≡ wire_of (node_answer level_next words.now bits nodes.now block node) }
{
    wire::found(bp::level_next(words, bits as usize, nodes, block as usize, node as usize))
}

// Answers `level_prev(node)`.
#[unsafe(no_mangle)]
pub extern "C" fn bpw_level_prev(
    words: &[u64],
    bits: u64,
    nodes: &[i64],
    block: u64,
    node: u64,
) -> i64
    ensures { result ≡ wire_of (node_answer level_prev words.now bits nodes.now block node) }
{
    wire::found(bp::level_prev(words, bits as usize, nodes, block as usize, node as usize))
}

// Answers `level_leftmost(level)`.
#[unsafe(no_mangle)]
pub extern "C" fn bpw_level_leftmost(
    words: &[u64],
    bits: u64,
    nodes: &[i64],
    block: u64,
    level: u64,
) -> i64
    ensures { result ≡ wire_of (level_answer level_leftmost words.now bits nodes.now block level) }
{
    wire::found(bp::level_leftmost(words, bits as usize, nodes, block as usize, level))
}

// Answers `level_rightmost(level)`.
#[unsafe(no_mangle)]
pub extern "C" fn bpw_level_rightmost(
    words: &[u64],
    bits: u64,
    nodes: &[i64],
    block: u64,
    level: u64,
) -> i64
    ensures { result ≡ wire_of (rightmost_answer words.now bits nodes.now block level) }
{
    wire::found(bp::level_rightmost(words, bits as usize, nodes, block as usize, level))
}
