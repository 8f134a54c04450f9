// Code tables, the walk through them, and the other tables of the decoder.
#![tactic(auto)]

pub mod codes;
pub mod lent;
pub mod matrices;
pub mod rates;
pub mod walk;
