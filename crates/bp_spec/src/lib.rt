// Specifies every call twice: by the walk over any node buffer, and by the definitions of SCOPE, The calls.
//
// The folder specs has the definitions. The folder proofs has the theorem that the two specifications agree on a node buffer as built,
// and the laws that the proofs of the calls cite. The only code is the list of the calls. The crates bp_search, bp_family and bp_level share
// these definitions, so none of them depends on another.
#![tactic(auto)]

mod question;

pub use question::Question;
