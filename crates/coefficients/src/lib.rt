// Coefficients of a block: the first half of the Rust's decode_block.
#![tactic(auto)]

pub mod block;
pub mod coefficient;
pub mod dc;
pub mod dequantise;
pub mod quantiser;
