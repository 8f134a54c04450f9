// RULES 7.7 to 7.16: a macroblock, and the way from one to the next.
#![tactic(auto)]

pub mod addresses;
pub mod body;
pub mod later;
pub mod macroblock;
