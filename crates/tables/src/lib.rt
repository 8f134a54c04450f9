// The constant code tables, and the array of all tables that is made of them.
#![tactic(auto)]

pub mod code_tables;
pub mod tables;
