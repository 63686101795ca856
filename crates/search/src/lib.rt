// What search strings ask: the faults of their alternatives on a sheet, and their verdicts on a card.
#![tactic(auto)]

mod asked;
mod faults;
mod says;

pub use faults::first_fault;
pub use says::rows_say;

// What a text asks under a kind: the number of an operator, as definitions of tests have it, and how many bytes stand before the value.
#[derive(Clone, Copy)]
pub struct Prefixed {
    pub operator: u8,
    pub skip: usize,
}
