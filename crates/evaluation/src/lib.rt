// The exact value of a claim's polynomial at given offsets.
#![tactic(auto)]

pub mod evaluations;
