// RULES 7.1 to 7.4: a picture, from behind its start code on: its header, its slices, and the turn of the stores.
#![tactic(auto)]

pub mod headers;
pub mod pictures;
pub mod roles;
pub mod whole;
