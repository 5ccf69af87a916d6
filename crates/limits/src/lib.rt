// The limits sheet: its fields, the checks 24 and 25, and what the limits add to the targets.
#![tactic(auto)]

pub mod additions;
pub mod limit_checks;
pub mod limits_sheet;
