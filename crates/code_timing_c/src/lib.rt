// The archive of `code_timing` for the host that times readers (tests/bench/codes): its call, under its name and with its clauses.
#![tactic(auto)]

mod sum;
