// The layout of the min-max tree in the node buffer: inner nodes first, then block leaves. The children of node k are nodes 2k+1 and 2k+2.
// `admit` makes the tests for refusals 1 to 4, in this order. A call that walks makes them by `Admitted::new`, and passes the admitted
// row on. What the tests have shown is an invariant of its type (specs/Layout.antt, record `Fine`).
#![tactic(auto)]

ghost use Rattle.std.specs.Prelude.{◌≡◌, ◌+◌, ◌*◌, ◌≤◌, length, IfOk};
ghost use Rattle.row.specs.Limits.{max_bits};
ghost use Rattle.row.specs.Gates.{gate_of};
ghost use Rattle.row.specs.Parts.{HasBits};
ghost use Rattle.mmt_layout.specs.Layout.{width, inner_for, layout_of, block_gate, nodes_gate, max_block, max_leaves, max_nodes};
ghost use Rattle.mmt_layout.specs.Parts.{HasParts};

mod admitted;

pub use admitted::Admitted;
use row::{Refusal, Row};

// A block has at most 65,536 bits.
pub const MAX_BLOCK: usize = 65536;

// The number of buffer entries per min-max node: total, least and greatest.
pub const WIDTH: usize = 3;

// The numbers of block leaves and of inner nodes. The first block leaf is the node with the index `inner`.
#[derive(Clone, Copy)]
pub struct Layout {
    pub leaves: usize,
    pub inner: usize,
}

impl Layout {
    // Returns the number of buffer entries that all nodes need: 3(L + I).
    pub fn entries(self) -> usize
        requires { self.leaves + self.inner ≤ max_nodes }
        ensures { result ≡ width * (self.leaves + self.inner) }
    {
        WIDTH * (self.leaves + self.inner)
    }
}

// Returns the number of inner nodes above l block leaves: max(1, P - 1), where P is the smallest power of two that is at least l.
// For l > 2, P - 1 consists of binary ones, as many as l - 1 has binary digits. So one shift computes it.
#[tactic(auto, using(crate::proofs::Powers::inner_one))]
fn inner_for(l: usize) -> usize
    requires { l ≤ max_leaves }
    ensures { result ≡ inner_for l }
{
    if l <= 2 {
        return 1;
    }
    (u64::MAX >> u64::leading_zeros((l - 1) as u64)) as usize
}

// Returns the layout of n bits in blocks of `block` bits. A row without bits has no nodes.
#[tactic(auto, using(crate::proofs::Powers::leaves_up, crate::proofs::Powers::leaves_small), unfolding(crate::specs::Layout::layout_of))]
pub fn layout_of(n: usize, block: usize) -> Layout
    requires { (n ≤ max_bits) × (8 ≤ block) × (block ≤ max_block) }
    ensures { result ≡ layout_of n block }
{
    if n == 0 {
        return Layout {
            leaves: 0,
            inner: 0,
        };
    }
    let l = n.div_ceil(block);
    Layout {
        leaves: l,
        inner: inner_for(l),
    }
}

// Test 1: refuses a block size that is 0, above 65,536 or not a multiple of 8.
#[tactic(auto, unfolding(crate::specs::Layout::block_gate))]
fn admit_block(block: usize) -> Result<(), Refusal>
    ensures { result ≡ block_gate block }
{
    if block == 0 || MAX_BLOCK < block || block % 8 != 0 {
        return Err(Refusal::BlockSize);
    }
    Ok(())
}

// Makes tests 1 to 4 in their order, for n bits in `words` words and a node buffer of `nodes` entries.
// The first test that fails gives the refusal.
#[tactic(auto, using(crate::proofs::Gates::count_small), unfolding(crate::specs::Layout::block_gate, row::specs::Gates::row_gate, crate::specs::Layout::room_gate, crate::specs::Layout::nodes_gate))]
pub fn admit(words: usize, n: usize, nodes: usize, block: usize) -> Result<(), Refusal>
    ensures { result ≡ nodes_gate words n nodes block }
{
    admit_block(block)?;
    row::admit_row(words, n)?;
    if nodes < layout_of(n, block).entries() {
        return Err(Refusal::TooFewNodes);
    }
    Ok(())
}

impl<'a> Admitted<'a> {
    // Makes tests 1 to 4 in their order.
    #[tactic(auto, using(crate::proofs::Gates::gate_fine))]
    pub fn new(
        words: &'a [u64],
        n: usize,
        nodes: &'a [i64],
        block: usize,
    ) -> Result<Admitted<'a>, Refusal>
        ensures gate { gate_of result ≡ nodes_gate (length words.now) n (length nodes.now) block }
        ensures parts { IfOk result (HasParts words.now n nodes.now block) }
    {
        admit(words.len(), n, nodes.len(), block)?;
        Ok(Admitted {
            words,
            n,
            nodes,
            block,
        })
    }

    // Returns the row without its node buffer.
    pub fn row(self) -> Row<'a>
        ensures { HasBits self.entry.words.now self.entry.n result }
    {
        Row {
            words: self.words,
            n: self.n,
        }
    }
}
