// The sequence header: what it sets, its reading, and the store where one is accepted (RULES O.3, O.4, Q2).
#![tactic(auto)]

pub mod possible;
pub mod sequences;
pub mod state;
pub mod store;
