// RULES part 9: a picture of a store as ARGB, scaled to the nearest sample.
#![tactic(auto)]

pub mod pixel;
pub mod planes;
pub mod scaled;
