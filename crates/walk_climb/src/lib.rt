// The climb of a walk: goes up from a node past siblings that do not qualify, to one that does, or out of the tree.
// It is a recursion in which the index of the node falls (SCOPE, How a search walks: Recursion).
// The node buffer may be foreign. A sibling that is out of range is refusal 8.
#![tactic(auto)]

ghost use Rattle.std.specs.Prelude.{◌≡◌, ◌+◌, ◌*◌, ◌≤◌};
ghost use Rattle.row.specs.Limits.{max_bits};
ghost use Rattle.walk_spec.specs.Walk.{climb};
ghost use Rattle.walk_climb.specs.Climbed.{climbed_of, Climbs, Above, Part};

use bits_stretch::Direction;
use row::Refusal;
use std::ops::ControlFlow;
pub use walk_examine::Place;
use walk_examine::{Asked, Nodes};

// A sibling beyond a node that a climb has reached: the sibling, its parent, and its height.
#[derive(Clone, Copy)]
struct Sibling {
    node: usize,
    parent: usize,
    height: usize,
}

// Goes up from node k at height h to the next node that has a sibling beyond it. Of two siblings, the farther one has none beyond it.
// It is a loop, because it examines no node and each recursive call would cost a stack frame.
fn sibling_above<D: Direction>(k: usize, h: usize) -> Option<Sibling>
    requires { h + 2 * k ≤ max_bits }
    ensures { Above D.way k h result }
{
    let mut j = k;
    let mut height = h;
    // No range counts these steps: each one about halves the index.
    while j != 0 {
        let parent = (j - 1) / 2;
        let (_, node) = D::order(2 * parent + 1, 2 * parent + 2);
        if j != node {
            return Some(Sibling {
                node,
                parent,
                height,
            });
        }
        j = parent;
        height += 1;
    }
    None
}

// Goes up from place p to the next sibling beyond, and asks it. It breaks off where the descent begins, or out of the tree.
// If the sibling is passed, the climb goes on at the parent with the remainder after the sibling.
#[tactic(auto, using(crate::proofs::Climbs::part_on))]
fn up<D: Direction>(nodes: &Nodes, p: Place) -> Result<ControlFlow<Option<Place>, Place>, Refusal>
    requires { Climbs nodes.now.all p.node p.height p.remainder }
    ensures { Part D.way nodes.now.all nodes.now.buffer.now p.node p.height p.remainder result }
{
    let Some(s) = sibling_above::<D>(p.node, p.height) else {
        return Ok(ControlFlow::Break(None));
    };
    match nodes.ask::<D>(s.node, p.remainder)? {
        Asked::Here => Ok(ControlFlow::Break(Some(Place {
            node: s.node,
            height: s.height,
            remainder: p.remainder,
        }))),
        Asked::Past(q) => Ok(ControlFlow::Continue(Place {
            node: s.parent,
            height: s.height + 1,
            remainder: q,
        })),
        Asked::Absent => Ok(ControlFlow::Break(None)),
    }
}

// Climbs from place p to the sibling that qualifies for its remainder, where the descent begins. Out of the tree there is none.
// The index of the node falls with each sibling that is asked. One call asks up to two siblings, because each call costs a stack frame.
pub fn climb<D: Direction>(nodes: &Nodes, p: Place) -> Result<Option<Place>, Refusal>
    requires { Climbs nodes.now.all p.node p.height p.remainder }
    ensures { result
        ≡ climbed_of (climb D.way nodes.now.all nodes.now.buffer.now p.node p.height p.node p.remainder 0) }
{
    match up::<D>(nodes, p)? {
        ControlFlow::Continue(q) => match up::<D>(nodes, q)? {
            ControlFlow::Continue(t) => climb::<D>(nodes, t),
            ControlFlow::Break(a) => Ok(a),
        },
        ControlFlow::Break(a) => Ok(a),
    }
}
