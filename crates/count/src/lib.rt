// A stream opened and handed out in one call, for C and Rust hosts. A library of its own: the compiler joins the calls of `decoder` into a host's call
// where there is one of them.
#![tactic(auto)]

pub mod run;
