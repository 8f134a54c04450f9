// RULES 7.5, 7.6: a slice, from behind its start code on.
#![tactic(auto)]

pub mod slices;
