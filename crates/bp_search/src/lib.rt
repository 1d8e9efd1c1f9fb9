// The two searches, and `close`, `open` and `enclose`, which are one search each. They take any position.
//
// They test refusals 1 to 4, and the walk may give refusal 8. The words and the node buffer are borrowed and never written. Over nodes as
// built the answers are the definitions of SCOPE, The two searches and The calls.
//
// Forward and backward stay two functions, because C calls each by its name, and SCOPE defines each.
#![tactic(auto)]

ghost use Rattle.std.specs.Prelude.{◌≡◌, negsuc};
ghost use Rattle.row.specs.Answer.{paper_found};
ghost use Rattle.row.specs.Search.{fwd, bwd};
ghost use Rattle.bp_spec.specs.SearchCalls.{outward, FwdPromise, BwdPromise};

use bits_stretch::{Backward, Forward};
use mmt_layout::Admitted;
use row::Found;
use walk_code::walk;

// Returns the smallest position j with i < j < n and E(j+1) = E(i+1) + r, or nothing.
#[tactic(auto, using(bp_spec::proofs::SearchAnswers::fwd_err))]
pub fn fwd_search(words: &[u64], n: usize, nodes: &[i64], block: usize, i: usize, r: i64) -> Found
    ensures { FwdPromise words.now n nodes.now block i r (paper_found result) }
{
    walk::<Forward>(Admitted::new(words, n, nodes, block)?, i, r)
}

// Returns the greatest position j with j < i and E(j) = E(i) + r, or nothing.
#[tactic(auto, using(bp_spec::proofs::SearchAnswers::bwd_err))]
pub fn bwd_search(words: &[u64], n: usize, nodes: &[i64], block: usize, i: usize, r: i64) -> Found
    ensures { BwdPromise words.now n nodes.now block i r (paper_found result) }
{
    walk::<Backward>(Admitted::new(words, n, nodes, block)?, i, r)
}

// Returns the position of the `)` that closes the `(` at i: fwd(i, -1).
pub fn close(words: &[u64], n: usize, nodes: &[i64], block: usize, i: usize) -> Found
    ensures { FwdPromise words.now n nodes.now block i (negsuc 0) (paper_found result) }
{
    fwd_search(words, n, nodes, block, i, -1)
}

// Returns the position of the `(` that the `)` at i closes: bwd(i, -1).
pub fn open(words: &[u64], n: usize, nodes: &[i64], block: usize, i: usize) -> Found
    ensures { BwdPromise words.now n nodes.now block i (negsuc 0) (paper_found result) }
{
    bwd_search(words, n, nodes, block, i, -1)
}

// Returns the difference that `enclose` searches for: -1 at an open bit of the row, -2 at any other position.
// A position below n past the end of the words counts as not open. The value does not matter there, because the search gives refusal 3.
#[tactic(auto, using(bp_spec::proofs::SearchAnswers::outward_steps))]
fn out_of(words: &[u64], n: usize, i: usize) -> i64
    ensures { result ≡ outward words.now n i }
{
    if i < n && i / 64 < words.len() && row::opens_at(words, i) {
        -1
    } else {
        -2
    }
}

// Returns the open position of the pair around position i: bwd(i, -1) at an open bit of the row, bwd(i, -2) at any other position.
pub fn enclose(words: &[u64], n: usize, nodes: &[i64], block: usize, i: usize) -> Found
    ensures { BwdPromise words.now n nodes.now block i (outward words.now n i) (paper_found result) }
{
    bwd_search(words, n, nodes, block, i, out_of(words, n, i))
}
