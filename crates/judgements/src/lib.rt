// Judgements of a row by the rules 17 to 19, and of all rows in the order of their numbers.
#![tactic(auto)]

pub mod judgements;
