// The texts of a limits sheet and of a profile.
#![tactic(auto)]

pub mod limits_text;
pub mod own_checks;
pub mod profile_text;
