// Lists of the Rust's answers: their files, the bytes, numbers and blocks that a list holds, how many of its cases agree, and the noise that memory has before.
#![tactic(auto)]

pub mod block;
pub mod bytes;
pub mod load;
pub mod noise;
pub mod numbers;
pub mod tally;
