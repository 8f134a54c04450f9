// The state of a picture: its fields, its bounds (question 2), a fresh one.
#![tactic(auto)]

pub mod flags;
pub mod fresh;
pub mod limits;
pub mod types;
