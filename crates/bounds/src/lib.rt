// The bounds of documents 01 and 02, whether a number is beyond ± a limit, and a site's own bounds.
#![tactic(auto)]

pub mod bounds;
pub mod profiles;
