// Checks of the claim sheet: refusals 1 to 7.
#![tactic(auto)]

pub mod claim_checks;
