// The calls on outline nodes over words and numbers, for rows of up to 2^32 bits, without a copy.
//
// Each function makes one call and has the promise of that call.
ghost use Rattle.std.specs.Prelude.{◌≡◌, length};
ghost use Rattle.row.specs.Gates.{row_gate, through};
ghost use Rattle.bp_spec.specs.RowCalls.{root, first_child, is_leaf, handle_answer};
ghost use Rattle.bp_spec.specs.HandleCalls.{node_answer};
ghost use Rattle.bp_spec.specs.AncestorCalls.{parent, ancestor_answer};
ghost use Rattle.bp_spec.specs.SiblingCalls.{last_child, next_sibling, previous_sibling};
ghost use Rattle.wire.specs.Answer.{wire_of};

// Answers `root()`: 0, or nothing on an empty row.
#[unsafe(no_mangle)]
pub extern "C" fn bpw_root(words: &[u64], bits: u64) -> i64
    ensures { result ≡ wire_of (through (row_gate (length words.now) bits) (root bits)) }
{
    wire::found(bp::root(words, bits as usize))
}

// Answers `first_child(node)`.
#[unsafe(no_mangle)]
pub extern "C" fn bpw_first_child(words: &[u64], bits: u64, node: u64) -> i64
    ensures { result ≡ wire_of (handle_answer first_child words.now bits node) }
{
    wire::found(bp::first_child(words, bits as usize, node as usize))
}

// Answers `is_leaf(node)`: 1 or 0.
#[unsafe(no_mangle)]
pub extern "C" fn bpw_is_leaf(words: &[u64], bits: u64, node: u64) -> i64
    ensures { result ≡ wire_of (handle_answer is_leaf words.now bits node) }
{
    wire::told(bp::is_leaf(words, bits as usize, node as usize))
}

// Answers `parent(node)`.
#[unsafe(no_mangle)]
pub extern "C" fn bpw_parent(words: &[u64], bits: u64, nodes: &[i64], block: u64, node: u64) -> i64
    ensures { result ≡ wire_of (node_answer parent words.now bits nodes.now block node) }
{
    wire::found(bp::parent(words, bits as usize, nodes, block as usize, node as usize))
}

// Answers `last_child(node)`.
#[unsafe(no_mangle)]
pub extern "C" fn bpw_last_child(
    words: &[u64],
    bits: u64,
    nodes: &[i64],
    block: u64,
    node: u64,
) -> i64
    ensures { result ≡ wire_of (node_answer last_child words.now bits nodes.now block node) }
{
    wire::found(bp::last_child(words, bits as usize, nodes, block as usize, node as usize))
}

// Answers `next_sibling(node)`.
#[unsafe(no_mangle)]
pub extern "C" fn bpw_next_sibling(
    words: &[u64],
    bits: u64,
    nodes: &[i64],
    block: u64,
    node: u64,
) -> i64
    ensures { result ≡ wire_of (node_answer next_sibling words.now bits nodes.now block node) }
{
    wire::found(bp::next_sibling(words, bits as usize, nodes, block as usize, node as usize))
}

// Answers `previous_sibling(node)`.
#[unsafe(no_mangle)]
pub extern "C" fn bpw_previous_sibling(
    words: &[u64],
    bits: u64,
    nodes: &[i64],
    block: u64,
    node: u64,
) -> i64
    ensures { result ≡ wire_of (node_answer previous_sibling words.now bits nodes.now block node) }
{
    wire::found(bp::previous_sibling(words, bits as usize, nodes, block as usize, node as usize))
}

// Answers `is_ancestor(ancestor, descendant)`: 1 or 0, or nothing if the ancestor has no close.
#[unsafe(no_mangle)]
pub extern "C" fn bpw_is_ancestor(
    words: &[u64],
    bits: u64,
    nodes: &[i64],
    block: u64,
    ancestor: u64,
    descendant: u64,
) -> i64
    ensures { result ≡ wire_of (ancestor_answer words.now bits nodes.now block ancestor descendant) }
{
    wire::told(bp::is_ancestor(
        words,
        bits as usize,
        nodes,
        block as usize,
        ancestor as usize,
        descendant as usize,
    ))
}
