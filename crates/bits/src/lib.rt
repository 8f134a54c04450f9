// The bit reader: the Rust's `Buffer`, with the stream lent to each call and the place in a record by value.
#![tactic(auto)]

pub mod bytes;
pub mod position;
pub mod reader;
pub mod start_codes;
