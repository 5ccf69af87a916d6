// Checks of the proof sheet, and of all three sheets in their order: refusals 1 to 15, 24, 25 and 27.
#![tactic(auto)]

pub mod input;
pub mod proof_checks;
