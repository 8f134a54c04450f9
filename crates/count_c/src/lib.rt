// The archive of `count` for C and Rust hosts: its call, under its name and with its clauses. hosts/c/mpeg1.h declares it.
#![tactic(auto)]

mod run;
