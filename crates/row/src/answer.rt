// The answer types of the calls. specs/Answer.antt gives the specification answer of each value (SCOPE, Refusals).
//
// A refusal is the error. Among the other answers, `None` is the answer "there is none".
use crate::refusal::Refusal;

// Answer of a search, and of every other call that returns a position.
pub type Found = Result<Option<usize>, Refusal>;

// Answer of a yes-or-no call.
pub type Told = Result<Option<bool>, Refusal>;
