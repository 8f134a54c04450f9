// What a macroblock has before its blocks: the increment, the address, the type, scale and vectors, the pattern, and the prediction.
#![tactic(auto)]

pub mod heads;
pub mod increments;
pub mod predictions;
