// Texts of sheets: exponents behind labels, a sheet's own number of variables, and a text handed over in a lent buffer.
#![tactic(auto)]

pub mod exponents;
pub mod handing;
pub mod variables;
