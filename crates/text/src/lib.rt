// Text put over a lent buffer: numbers, labels, columns, and the lines that the program prints.
#![tactic(auto)]

pub mod columns;
pub mod lines;
pub mod text;
