// What the operations answer: the definitions and the laws about these in specs/ and proofs/. Each answers a `Result`: a count, or a yes
// or a no, or a refusal with its reason and its place.
#![tactic(auto)]

mod accept;
mod list;

pub use accept::{accept_sheet, accept_text};
pub use list::write;

// Which way a filter is judged: by its rows, or by its text, which is slower and shares no evaluation with the rows. Both answer the same.
#[derive(Clone, Copy)]
pub enum Engine {
    Rows,
    Text,
}
