// Answers as one i64: the value, -1 for nothing, -1 - k for refusal k. Yes is 1, no is 0, and the success of a build is 0.
// A position or a bit count is at most 2^32, so it fits into an i64.
//
// These are functions and no `From`: both the answers and i64 are types of the standard library, and two functions have a `requires`.
ghost use Rattle.std.specs.Prelude.{◌≡◌, negsuc};
ghost use Rattle.row.specs.Answer.{number_of, paper_found, paper_told, paper_built, paper_read};
ghost use Rattle.wire.specs.Answer.{wire_of, Small};

use row::{Found, Refusal, Told};

// Returns the i64 of a refusal.
pub fn refused(k: Refusal) -> i64
    ensures { result ≡ negsuc (number_of k) }
{
    -1 - (k.number() as i64)
}

// Returns the i64 of an answer of type `Found`: a position, nothing or a refusal.
pub fn found(a: Found) -> i64
    requires { Small (paper_found a) }
    ensures { result ≡ wire_of (paper_found a) }
{
    match a {
        Ok(Some(j)) => j as i64,
        Ok(None) => -1,
        Err(k) => refused(k),
    }
}

// Returns the i64 of a yes-or-no answer.
pub fn told(a: Told) -> i64
    ensures { result ≡ wire_of (paper_told a) }
{
    match a {
        Ok(Some(yes)) => i64::from(yes),
        Ok(None) => -1,
        Err(k) => refused(k),
    }
}

// Returns the i64 of the answer of a build.
pub fn built(a: Result<(), Refusal>) -> i64
    ensures { result ≡ wire_of (paper_built a) }
{
    match a {
        Ok(()) => 0,
        Err(k) => refused(k),
    }
}

// Returns the i64 of the answer of the text reader.
pub fn read(a: Result<usize, Refusal>) -> i64
    requires { Small (paper_read a) }
    ensures { result ≡ wire_of (paper_read a) }
{
    match a {
        Ok(n) => n as i64,
        Err(k) => refused(k),
    }
}
