// ISO/IEC 11172-2 from the picture down, as printed: the text is in specs/, the theorems that ours follows it in proofs/. There is no code.
#![tactic(auto)]
