// The text of a claim.
#![tactic(auto)]

pub mod claim_text;
