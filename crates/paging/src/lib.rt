// The check with a page: the verdict and the first rows on paper too.
#![tactic(auto)]

pub mod page_check;
