// The answers that every check gives: verdicts with their numbers, and the first offending index.
#![tactic(auto)]

pub mod answers;
pub mod searches;
