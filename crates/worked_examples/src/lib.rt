// The worked cases of docs/RULES.md: the list is in specs/, the proposition in proofs/. There is no code.
#![tactic(auto)]
