// The walk of a search: scan of the start block, climb, descent, scan of the target block.
// The bits of the start block up to a byte boundary are scanned one by one, before its whole bytes.
//
// The row is admitted: it has passed the tests for refusals 1 to 4. The node buffer may be foreign: refusal 8 is given for the three
// reasons in SCOPE, How a search walks (When refusal 8 is given), and for no other.
#![tactic(auto)]

mod start;

ghost use Rattle.std.specs.Prelude.{◌≡◌, ◌-◌, ◌*◌, ◌/◌, min};
ghost use Rattle.row.specs.Answer.{paper_found};
ghost use Rattle.row.specs.Bits.{bit_at};
ghost use Rattle.bits_stretch.specs.Scan.{scan};
ghost use Rattle.walk_spec.specs.Walk.{in_leaf, beyond, in_start, walk};
ghost use Rattle.walk_code.specs.WalkParts.{scan_of, rest_of_start, RestOfStart, StartPassed, TargetBlock};

use bits_edge::scan_edge;
use bits_scan::scan_block;
use bits_stretch::Direction;
use mmt_layout::Admitted;
use row::{Found, Refusal};
pub use start::{FirstBits, StartOfWalk};
use std::ops::ControlFlow;
use walk_climb::{Place, climb};
use walk_descend::descend;
use walk_examine::Nodes;

// Scans the target block b with the remainder r. Without a hit the search is refused by 8.
fn target_block<D: Direction>(row: Admitted, b: usize, r: i64) -> Found
    requires { TargetBlock row.n row.block b r }
    ensures { paper_found result
        ≡ (in_leaf D.way row.entry.words.now row.entry.n row.entry.nodes.now row.entry.block
        (scan D.way (bit_at row.entry.words.now) (min row.entry.block (row.entry.n - b * row.entry.block)) (b * row.entry.block) r) 0).answer }
{
    let from = b * row.block;
    match scan_block::<D>(row.words, from, row.n.min(from + row.block), r) {
        ControlFlow::Break(j) => Ok(Some(j)),
        ControlFlow::Continue(_) => Err(Refusal::NodesMisfit),
    }
}

// Goes on after the start block b with the remainder r: climb, descent and target block.
#[tactic(auto, using(crate::proofs::Answers::leaf_after))]
fn beyond<D: Direction>(row: Admitted, b: usize, r: i64) -> Found
    requires { StartPassed row.n row.block b r }
    ensures { paper_found result ≡ (beyond D.way row.entry.words.now row.entry.n row.entry.nodes.now row.entry.block b r).answer }
{
    let lay = mmt_layout::layout_of(row.n, row.block);
    let first = lay.inner;
    let nodes = Nodes {
        buffer: row.nodes,
        all: first + lay.leaves,
    };
    let start = Place {
        node: first + b,
        height: 0,
        remainder: r,
    };
    let Some(p) = climb::<D>(&nodes, start)? else {
        return Ok(None);
    };
    let leaf = descend::<D>(&nodes, p)?;
    target_block::<D>(row, leaf.node - first, leaf.remainder)
}

// Scans the rest of the start block, after its first bits s, and then goes on beyond the block.
// The rest is on the side of s that is met second. The bits on the other side are not scanned.
fn past_first_bits<D: Direction>(row: Admitted, s: FirstBits, r: i64) -> Found
    requires { RestOfStart D.way row.n row.block s r }
    ensures { paper_found result
        ≡ (in_start D.way row.entry.words.now row.entry.n row.entry.nodes.now row.entry.block (s.first / row.entry.block)
        (scan_of D.way row.entry.words.now (rest_of_start D.way row.entry.n row.entry.block s) r)).answer }
{
    let b = s.first / row.block;
    let start = b * row.block;
    let end = row.n.min(start + row.block);
    let (_, rest) = D::order((start, s.from), (s.to, end));
    match scan_block::<D>(row.words, rest.0, rest.1, r) {
        ControlFlow::Break(j) => Ok(Some(j)),
        ControlFlow::Continue(q) => beyond::<D>(row, b, q),
    }
}

// Walks from position i for the difference r.
#[tactic(auto, using(crate::proofs::Answers::walk_end, crate::proofs::Answers::walk_far, crate::proofs::Starts::first_hit, crate::proofs::Starts::first_on))]
pub fn walk<D: StartOfWalk>(row: Admitted, i: usize, r: i64) -> Found
    ensures { paper_found result ≡ (walk D.way row.entry.words.now row.entry.n row.entry.nodes.now row.entry.block i r).answer }
{
    let Some(s) = D::first_bits(row.n, i) else {
        return Ok(None);
    };
    let most = row.n as u64;
    if most < r.unsigned_abs() {
        return Ok(None);
    }
    match scan_edge::<D>(row.words, s.from, s.to, r) {
        ControlFlow::Break(j) => Ok(Some(j)),
        ControlFlow::Continue(q) => past_first_bits::<D>(row, s, q),
    }
}
