// How rows, node numbers and answers cross the C boundary (SCOPE, The C functions).
//
// A row word or a node number is eight bytes, the least significant byte first. Negative numbers are in two's complement.
// One to seven bytes at the end are ignored. An answer is one i64.
//
// A row that crosses as bytes has at most 4,096 bits. So its words and its node numbers fit into arrays of fixed size:
// 64 words and 3 * (512 + 511) = 3,069 node numbers, which is what the smallest block size needs. They are arrays and no `Vec`, because a
// C function is passed no allocator.
//
// No function here refuses anything. The calls test the words and numbers that were decoded.
#![tactic(auto)]

mod answer;
mod bytes;
mod limit;
mod lists;

pub use answer::{built, found, read, refused, told};
pub use bytes::EightBytes;
pub use limit::{ANSWERS, NUMBERS, WORDS, bits, fitting};
pub use lists::{take, write};
