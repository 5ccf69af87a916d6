// Targets: what the weights at a point are to add up to.
#![tactic(auto)]

pub mod targets;
