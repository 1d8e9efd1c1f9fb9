// Laws of signed numbers, in proofs/. With them `omega` proves linear facts about signed numbers in every crate above. There is no code.
#![tactic(auto)]
