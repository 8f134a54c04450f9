// The inverse transform of a block (RULES part 4).
#![tactic(auto)]

pub mod butterfly;
pub mod idct;
