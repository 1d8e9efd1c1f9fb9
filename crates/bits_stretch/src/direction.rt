// The direction of a search: forward or backward. Every scan and every part of a walk is written once, for either direction.
ghost use Rattle.std.specs.Prelude.{◌≡◌, ◌+◌, ◌≤◌, ◌<◌};
ghost use Rattle.ints.specs.Limits.{i64_bound};
ghost use Rattle.ints.specs.Sides.{size};
ghost use Rattle.row.specs.Limits.{max_bits};
ghost use Rattle.row.specs.Way.{Way, forward, backward};
ghost use Rattle.bits_stretch.specs.Scan.{place, rest, order, passed};
ghost use Rattle.bits_stretch.specs.Summary.{holds_on};

use crate::summary::Summary;

pub trait Direction {
    ghost way: { Way };

    // Returns the position that is read first of the c + 1 positions from j on.
    fn place(c: usize, j: usize) -> usize
        requires { j + c ≤ max_bits }
        ensures { result ≡ place way c j };

    // Returns where the other c positions begin.
    fn rest(j: usize) -> usize
        requires { j ≤ max_bits }
        ensures { result ≡ rest way j };

    // Returns two neighbours in the order in which they are met. `low` is the one with the smaller position.
    fn order<T>(low: T, high: T) -> (T, T)
        ensures { result ≡ order way low high };

    // Returns the remainder r after bits of the total t.
    fn passed(r: i64, t: i64) -> i64
        requires { size r + size t < i64_bound }
        ensures { result ≡ passed way r t };

    // Tests whether a stretch with the summary x qualifies for the remainder r.
    fn holds(x: Summary, r: i64) -> bool
        requires { size r + size x.total < i64_bound }
        ensures { result ≡ holds_on way x r };
}

pub struct Forward;

pub struct Backward;

impl Direction for Forward {
    ghost way = { forward };

    fn place(_c: usize, j: usize) -> usize {
        j
    }

    fn rest(j: usize) -> usize {
        j + 1
    }

    fn order<T>(low: T, high: T) -> (T, T) {
        (low, high)
    }

    fn passed(r: i64, t: i64) -> i64 {
        r - t
    }

    fn holds(x: Summary, r: i64) -> bool {
        x.spans(r)
    }
}

// A backward search compares the excess before a bit. Before the first bit of a stretch it is 0, so a stretch qualifies also if its
// total takes the remainder to 0.
impl Direction for Backward {
    ghost way = { backward };

    fn place(c: usize, j: usize) -> usize {
        j + c
    }

    fn rest(j: usize) -> usize {
        j
    }

    fn order<T>(low: T, high: T) -> (T, T) {
        (high, low)
    }

    fn passed(r: i64, t: i64) -> i64 {
        r + t
    }

    fn holds(x: Summary, r: i64) -> bool {
        x.spans_back(r + x.total)
    }
}
