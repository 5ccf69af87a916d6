// Arithmetic over the integers that knows nothing of sheets: words in bytes, floor division, absolute values.
#![tactic(auto)]

pub mod division;
pub mod magnitudes;
pub mod words;
