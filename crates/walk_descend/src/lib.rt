// The descent of a walk: goes down from a node to a block leaf, at each level to the child that qualifies.
// It is a recursion in which the levels left fall (SCOPE, How a search walks: Recursion).
// The node buffer may be foreign. If no child qualifies, or one is out of range or missing, the descent is refused by 8.
#![tactic(auto)]

ghost use Rattle.std.specs.Prelude.{◌≡◌, min};
ghost use Rattle.walk_spec.specs.Walk.{descend};
ghost use Rattle.walk_descend.specs.Descended.{descended_of, Descends};

use bits_stretch::Direction;
use row::Refusal;
use walk_examine::{Asked, Nodes, Place};

// A node that a descent has reached, and the remainder there. It is a block leaf if no level is left.
#[derive(Clone, Copy, Debug, PartialEq, Eq)]
pub struct Leaf {
    pub node: usize,
    pub remainder: i64,
}

// Goes down from node k by one level, to the child that qualifies. It asks the child that is met first, for r.
// If that one is passed, it asks the other child for the remainder after it.
#[tactic(auto, using(crate::proofs::Descends::down_near, crate::proofs::Descends::past_room, crate::proofs::Descends::down_far))]
fn down<D: Direction>(nodes: &Nodes, k: usize, r: i64) -> Result<Leaf, Refusal>
    requires { Descends nodes.now.all k 1 r }
    ensures { result ≡ descended_of (descend D.way nodes.now.all nodes.now.buffer.now 1 k r 0) }
{
    let (near, far) = D::order(2 * k + 1, 2 * k + 2);
    match nodes.ask::<D>(near, r)? {
        Asked::Here => Ok(Leaf {
            node: near,
            remainder: r,
        }),
        Asked::Past(q) => match nodes.ask::<D>(far, q)? {
            Asked::Here => Ok(Leaf {
                node: far,
                remainder: q,
            }),
            Asked::Past(_) | Asked::Absent => Err(Refusal::NodesMisfit),
        },
        Asked::Absent => Err(Refusal::NodesMisfit),
    }
}

// Goes down from place p by two levels, or by its height if that is less.
#[tactic(auto, using(crate::proofs::Descends::descended_leaf, crate::proofs::Descends::one_err))]
fn down_two<D: Direction>(nodes: &Nodes, p: Place) -> Result<Leaf, Refusal>
    requires { Descends nodes.now.all p.node p.height p.remainder }
    ensures { result ≡ descended_of (descend D.way nodes.now.all nodes.now.buffer.now (min p.height 2) p.node p.remainder 0) }
{
    if p.height == 0 {
        return Ok(Leaf {
            node: p.node,
            remainder: p.remainder,
        });
    }
    let one = down::<D>(nodes, p.node, p.remainder)?;
    if p.height == 1 {
        return Ok(one);
    }
    down::<D>(nodes, one.node, one.remainder)
}

// Descends from place p to a block leaf. The height falls by up to four per call,
// because each call costs a stack frame and its result is copied on the way back.
#[tactic(auto, using(crate::proofs::Descends::two_err))]
pub fn descend<D: Direction>(nodes: &Nodes, p: Place) -> Result<Leaf, Refusal>
    requires { Descends nodes.now.all p.node p.height p.remainder }
    ensures { result ≡ descended_of (descend D.way nodes.now.all nodes.now.buffer.now p.height p.node p.remainder 0) }
{
    let two = down_two::<D>(nodes, p)?;
    if p.height <= 2 {
        return Ok(two);
    }
    let q = Place {
        node: two.node,
        height: p.height - 2,
        remainder: two.remainder,
    };
    let four = down_two::<D>(nodes, q)?;
    if p.height <= 4 {
        return Ok(four);
    }
    let t = Place {
        node: four.node,
        height: p.height - 4,
        remainder: four.remainder,
    };
    descend::<D>(nodes, t)
}
