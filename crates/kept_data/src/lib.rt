// What is asked of the kept rows' own buffers: whether a kept row is null, and how many data bytes the kept rows have.
#![tactic(auto)]

pub mod data;
mod root;
