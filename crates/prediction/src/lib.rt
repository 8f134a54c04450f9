// Prediction, and the writers of blocks.
#![tactic(auto)]

pub mod apart;
pub mod planes;
pub mod position;
pub mod predict;
pub mod rows;
pub mod samples;
pub mod vector;
pub mod writers;
