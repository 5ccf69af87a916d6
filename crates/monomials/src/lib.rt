// Exact powers, monomials and terms, up to the greatest value.
#![tactic(auto)]

pub mod powers;
