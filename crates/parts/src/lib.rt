// What both ends of the protocol use: sets of fragment numbers, the choice of the foremost of what waits, the first that passes a test, and the table of delays.
#![tactic(auto)]

pub mod delay;
pub mod number_set;
pub mod numbers;
pub mod places;
pub mod rank;
pub mod rising;
mod words;
