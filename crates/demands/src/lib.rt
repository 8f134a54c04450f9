// Demands 1 and 2, the run of calls and display order (RULES D1, D2, R): what they state is in specs/, the theorems in proofs/. There is no code.
#![tactic(auto)]
