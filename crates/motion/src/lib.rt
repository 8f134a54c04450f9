// Motion vectors.
#![tactic(auto)]

pub mod vector;
