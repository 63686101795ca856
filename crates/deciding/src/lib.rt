// Which tests decide what a filter says of a card: their verdicts, and those that can be spared, by marks over the filter's rows.
#![tactic(auto)]

mod cells;
mod marks;
mod sparing;
mod verdicts;

pub use sparing::spare;
pub use verdicts::gather_verdicts;

// The mark of a test, or of rows with their tests' marks: spared is neither yes nor no.
#[derive(Clone, Copy)]
pub enum Mark {
    Spared,
    Yes,
    No,
}

// The mark of a part of the rows, and the number of the test behind it.
#[derive(Clone, Copy)]
pub struct Marked {
    pub mark: Mark,
    pub next: usize,
}
