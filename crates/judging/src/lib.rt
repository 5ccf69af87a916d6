// Judging: the whole check of a claim and its proof within limits, and its promises.
#![tactic(auto)]

pub mod check;
