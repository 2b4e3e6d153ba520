// Checks of a buffer's content, row after row: offsets, views, list views, run ends, keys and ids. But for views, tests are folded into one
// flag, with no branch in the loop, so that the loop runs on vectors. Each loop is compiled for each type of number.
#![tactic(auto)]

pub mod keys;
pub mod lists;
mod numbers;
pub mod offsets;
pub mod runs;
pub mod views;
