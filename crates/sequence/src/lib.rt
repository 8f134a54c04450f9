// ISO/IEC 11172-2, the sequence layer, as printed: the text is in specs/, the theorem that a run of calls follows it in proofs/. There is no code.
#![tactic(auto)]
