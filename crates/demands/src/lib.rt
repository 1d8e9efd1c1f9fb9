// States and proves the privacy officer's three demands over the promises of the public calls (SCOPE, The demands).
// This crate has no code: specs/ has the statements, proofs/ has their proofs.

#![tactic(auto)]
