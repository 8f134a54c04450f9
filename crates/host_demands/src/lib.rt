// The promises of the library's calls (RULES D1, D2): what they state is in specs/, the theorems in proofs/. There is no code.
#![tactic(auto)]
