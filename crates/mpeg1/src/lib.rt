// The calls of `decoder` for C and Rust hosts. The record crosses in memory that the host owns (crate `memory`).
#![tactic(auto)]

pub mod calls;
pub mod views;
