// RULES 7.16, 6.12, 6.13: the blocks of a macroblock, read and written.
#![tactic(auto)]

pub mod blocks;
pub mod writes;
