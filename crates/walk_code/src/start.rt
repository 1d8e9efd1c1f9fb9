// The bits that a walk reads first, in each direction.
ghost use Rattle.row.specs.Limits.{max_bits};
ghost use Rattle.std.specs.Prelude.{◌≤◌};
ghost use Rattle.walk_code.specs.WalkParts.{Starts};

use bits_stretch::{Backward, Direction, Forward};

// The first bits of a walk: bits `from` to `to` - 1, up to a byte boundary. So they lie in one word and in the start block.
// `first` is the position that is read first. It lies in the start block also if these bits are none.
#[derive(Clone, Copy)]
pub struct FirstBits {
    pub first: usize,
    pub from: usize,
    pub to: usize,
}

// The directions, for the walk. Where a walk starts depends on the direction.
pub trait StartOfWalk: Direction {
    // Returns the first bits of a walk from position i, or nothing if the walk ends at once because of i.
    fn first_bits(n: usize, i: usize) -> Option<FirstBits>
        requires { n ≤ max_bits }
        ensures { Starts Self.way n i result };
}

impl StartOfWalk for Forward {
    fn first_bits(n: usize, i: usize) -> Option<FirstBits> {
        if n <= i {
            return None;
        }
        let from = i + 1;
        if n <= from {
            return None;
        }
        Some(FirstBits {
            first: from,
            from,
            to: n.min((from + 7) / 8 * 8),
        })
    }
}

impl StartOfWalk for Backward {
    fn first_bits(n: usize, i: usize) -> Option<FirstBits> {
        if i == 0 || n <= i {
            return None;
        }
        Some(FirstBits {
            first: i - 1,
            from: i / 8 * 8,
            to: i,
        })
    }
}
