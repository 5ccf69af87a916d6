// Points as one number each, so that two are compared at once.
#![tactic(auto)]

pub mod keys;
