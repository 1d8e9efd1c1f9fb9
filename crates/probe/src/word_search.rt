// The build and the searches over words and numbers, for rows of up to 2^32 bits, without a copy.
//
// Each function makes one call and has the promise of that call.
ghost use Rattle.std.specs.Prelude.{◌≡◌, negsuc, length};
ghost use Rattle.row.specs.Writes.{Writes};
ghost use Rattle.row.specs.Answer as answer;
ghost use Rattle.row.specs.Gates.{through};
ghost use Rattle.mmt_layout.specs.Layout.{nodes_gate};
ghost use Rattle.mmt_build.specs.Build.{built_nodes};
ghost use Rattle.bp_spec.specs.SearchCalls.{fwd_answer, bwd_answer, outward};
ghost use Rattle.wire.specs.Answer.{wire_of};

// Builds the min-max nodes of the row and writes them to `nodes`. Entries after the nodes are unchanged; a refusal leaves all unchanged.
#[unsafe(no_mangle)]
pub extern "C" fn bpw_build(words: &[u64], bits: u64, nodes: &mut [i64], block: u64) -> i64
    ensures { Writes result (wire_of (through (nodes_gate (length words.now) bits (length nodes.old) block) (answer.at 0)))
        nodes.new (built_nodes words.now bits nodes.old block) }
{
    wire::built(mmt_build::build(words, bits as usize, nodes, block as usize))
}

// Answers `fwd_search(at, r)`.
#[unsafe(no_mangle)]
pub extern "C" fn bpw_fwd_search(
    words: &[u64],
    bits: u64,
    nodes: &[i64],
    block: u64,
    at: u64,
    r: i64,
) -> i64
    ensures { result ≡ wire_of (fwd_answer words.now bits nodes.now block at r) }
{
    wire::found(bp::fwd_search(words, bits as usize, nodes, block as usize, at as usize, r))
}

// Answers `bwd_search(at, r)`.
#[unsafe(no_mangle)]
pub extern "C" fn bpw_bwd_search(
    words: &[u64],
    bits: u64,
    nodes: &[i64],
    block: u64,
    at: u64,
    r: i64,
) -> i64
    ensures { result ≡ wire_of (bwd_answer words.now bits nodes.now block at r) }
{
    wire::found(bp::bwd_search(words, bits as usize, nodes, block as usize, at as usize, r))
}

// Answers `close(at)` for any position.
#[unsafe(no_mangle)]
pub extern "C" fn bpw_close(words: &[u64], bits: u64, nodes: &[i64], block: u64, at: u64) -> i64
    ensures { result ≡ wire_of (fwd_answer words.now bits nodes.now block at (negsuc 0)) }
{
    wire::found(bp::close(words, bits as usize, nodes, block as usize, at as usize))
}

// Answers `open(at)` for any position.
#[unsafe(no_mangle)]
pub extern "C" fn bpw_open(words: &[u64], bits: u64, nodes: &[i64], block: u64, at: u64) -> i64
    ensures { result ≡ wire_of (bwd_answer words.now bits nodes.now block at (negsuc 0)) }
{
    wire::found(bp::open(words, bits as usize, nodes, block as usize, at as usize))
}

// Answers `enclose(at)` for any position.
#[unsafe(no_mangle)]
pub extern "C" fn bpw_enclose(words: &[u64], bits: u64, nodes: &[i64], block: u64, at: u64) -> i64
    ensures { result
        ≡ wire_of (bwd_answer words.now bits nodes.now block at (outward words.now bits at)) }
{
    wire::found(bp::enclose(words, bits as usize, nodes, block as usize, at as usize))
}
