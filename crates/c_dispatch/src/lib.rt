// The calls over byte slices, for rows of up to 4,096 bits. The exported functions of all 18 calls and of both tests share this decoding
// and this dispatch.
//
// A request names a call or a test, with its arguments. No public function here has a `requires`: the calls test their arguments.
#![tactic(auto)]

mod bytes;
mod reader;
mod request;

pub use bytes::{over_bytes, over_row};
pub use reader::read_text;
pub use request::{Request, answer, ask};
