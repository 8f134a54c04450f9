// The turns of a hand-out over what they change: the search for a picture, its decoding, the clock and the flush (RULES part 8).
#![tactic(auto)]

mod display;
pub mod outcome;
pub mod search;
pub mod state;
pub mod steps;
