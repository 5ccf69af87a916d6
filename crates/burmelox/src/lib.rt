// The static library for C and Rust: the check, with a page and without, the evaluation, the search and the texts of
// sheets, their answers as one number.
#![tactic(auto)]

pub mod exports;
pub mod texts;
