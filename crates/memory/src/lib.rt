// The record in memory that a host owns, each field in its own type.
#![tactic(auto)]

pub mod format;
pub mod reading;
pub mod writing;
