// Writers that only append: each writes at a place of the output and returns the next one.
#![tactic(auto)]

pub mod fields;
pub mod rows;
