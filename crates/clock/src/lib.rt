// The clock over a run of calls (RULES 8.9 to 8.12): the times are stated in specs/, the theorems stand in proofs/. There is no code.
#![tactic(auto)]
