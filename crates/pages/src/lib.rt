// The page of a verdict, with the first rows of its exact proof, into a lent buffer.
#![tactic(auto)]

pub mod pages;
