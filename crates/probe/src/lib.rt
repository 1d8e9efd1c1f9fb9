// The C functions for differential runs: `bp_` over byte slices, for rows of up to 4,096 bits, and `bpw_` over words and numbers, for rows of
// up to 2^32 bits. Each call stands twice, because C calls each function by its name:
// a caller that holds bytes needs no word alignment, and a caller with a long row needs no copy.
//
// A static library exports the marked functions of one crate, so all 44 functions are here. Each one makes one or two calls; the crates
// c_dispatch, c_listings and wire have the code that they share. No function has a `requires`: each tests its arguments. The answer is one i64.
#![tactic(auto)]

mod byte_level;
mod byte_listings;
mod byte_node;
mod byte_search;
mod byte_test;
mod word_level;
mod word_listings;
mod word_node;
mod word_search;
mod word_test;
