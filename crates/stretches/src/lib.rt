// Which rows each node keeps, without a buffer: stretch by stretch of rows that are alike, and run by run.
#![tactic(auto)]

pub mod kept;
mod parts;
pub mod told;

pub use kept::KeptRuns;
pub use told::Stretches;

// Rows of a node that are alike, up to `end`: all kept, or none.
#[derive(Clone, Copy)]
pub struct Stretch {
    pub kept: bool,
    pub end: usize,
}

// What was told last of a node: its rows from `from` on are such a stretch. `row`, of the list above it, is where to look from next.
#[derive(Clone, Copy)]
struct Seen {
    from: usize,
    stretch: Stretch,
    row: usize,
}

// Where a list has a child row: in a valid row; or in none, nor those after it up to an end, and the row to look from next.
#[derive(Clone, Copy)]
pub enum Place {
    Row(usize),
    Gap(usize, usize),
}
