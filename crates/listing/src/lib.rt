// What `pick` prints, as bytes in a buffer: record numbers line by line, a refusal with its place in the file, the count over all runs, and
// what cannot be done with a file; and the filter's text in its file. Reading and writing files is left to the program.
#![tactic(auto)]

mod filter_text;
mod lines;
mod runs;

pub use filter_text::without_line_feed;
pub use lines::{put_count, put_failure, put_lines, put_refusal};
pub use runs::{add_run, place_in_file};

// What the runs so far come to.
#[derive(Clone, Copy)]
pub struct Totals {
    pub matches: u64,
    pub cards: u64,
}
