// Points by value: their exponents, pure powers, order, midpoint and sign.
#![tactic(auto)]

pub mod points;
