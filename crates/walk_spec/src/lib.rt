// Specification of the walk of a search: scan of the start block, climb, descent, scan of the target block (SCOPE, How a search walks).
// There is no code here. specs/ defines the walk over any node buffer.
// proofs/ has the theorem: over nodes as built, the walk answers what the search is by definition.
// The code is in walk_examine, walk_climb, walk_descend and walk_code, so that a change to one of them does not recheck this theorem.

#![tactic(auto)]
