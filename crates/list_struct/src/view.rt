// The struct of a listing, and the results of a constructor and a step.
use row::{Found, Refusal};

// A listing. Its fields have the order in which every call takes its arguments.
#[derive(Clone, Copy)]
pub struct Children<'a> {
    pub words: &'a [u64],
    pub n: usize,
    pub nodes: &'a [i64],
    pub block: usize,
    // True if the next handle is the next sibling, false if it is the previous sibling.
    pub rising: bool,
    // The answer of the next step: a handle, a refusal met in the search for it, or `nothing`, which all later steps answer too.
    pub held: Found,
}

// The result of a constructor. A refused constructor returns the refusal in `gate`, together with a listing that has ended.
// Not a `Result`: SCOPE, Listing children, promises the listing beside a refusal too.
#[derive(Clone, Copy)]
pub struct Made<'a> {
    pub gate: Result<(), Refusal>,
    pub listing: Children<'a>,
}

// The result of a step: its answer, and the listing to go on with.
#[derive(Clone, Copy)]
pub struct Step<'a> {
    pub found: Found,
    pub rest: Children<'a>,
}
