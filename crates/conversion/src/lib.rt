// The conversion of a picture in a store (RULES part 9).
#![tactic(auto)]

pub mod pictures;
