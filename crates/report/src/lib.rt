// The report of a verdict, with the rows of its exact proof, into a lent buffer.
#![tactic(auto)]

pub mod reports;
