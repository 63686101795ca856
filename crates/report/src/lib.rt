// The report on a run of cards (02: the month-end sheet): how many cards say yes and how many no, and for each parameter how many cards
// of the run have it and how many values stand under it.
#![tactic(auto)]

mod operation;
mod plan;
mod tallies;

pub use operation::report;

// A row of the report, for one parameter: the cards of the run that have it, and the values under it.
#[repr(C)]
#[derive(Clone, Copy)]
pub struct Tally {
    pub cards: u32,
    pub values: u32,
}

// What a report answers: how many cards of the run say yes and how many no.
#[derive(Clone, Copy)]
pub struct Verdicts {
    pub yes: usize,
    pub no: usize,
}
