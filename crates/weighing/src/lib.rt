// Weighing: refusals 16 to 19 of checked sheets, and the exact proof in the output.
#![tactic(auto)]

pub mod exact;
pub mod unheld;
pub mod weighed;
