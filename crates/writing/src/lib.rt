// Weights written back into a proof sheet.
#![tactic(auto)]

pub mod writing;
