// The archive for C and Rust hosts: the calls of `mpeg1`, each under its name and with its clauses. hosts/c/mpeg1.h declares them.
// They are written out again because a crate is a library or a static library, and the program `conformance` calls those of the library `mpeg1`.
#![tactic(auto)]

mod calls;
mod views;
