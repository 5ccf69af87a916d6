// Floors: the search for the highest floor that a proof carries, and its promises.
#![tactic(auto)]

pub mod search;
pub mod trials;
