// The text of a proof.
#![tactic(auto)]

pub mod own_checks;
pub mod proof_text;
