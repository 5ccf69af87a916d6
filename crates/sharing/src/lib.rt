// Sharing the error: the slots at a point, and the weights shifted until they add up to the target.
#![tactic(auto)]

pub mod shifts;
pub mod slots;
