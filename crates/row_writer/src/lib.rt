// The rows of a filter, written while the filter is read.
#![tactic(auto)]

mod write;

use filter::Summary;
pub use write::write_filter;

// What reading gathers: the tests and the first refusal among them, and how many cells it has written.
#[derive(Clone, Copy)]
pub struct Outcome {
    pub summary: Summary,
    pub cells: usize,
}

// Where a filter or an item that was read ends, and what was gathered.
#[derive(Clone, Copy)]
pub struct Written {
    pub end: usize,
    pub outcome: Outcome,
}
