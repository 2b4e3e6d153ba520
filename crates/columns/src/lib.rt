// Column filters, named as in filter.rs: the kept rows of a column, appended block by block, whatever the selection.
#![tactic(auto)]

pub mod from_mask;
pub mod native;
#[cfg(test)]
mod tests;
