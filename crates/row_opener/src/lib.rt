// Rows opened once for many cards: what the value of each test reads to, in a list by row.
#![tactic(auto)]

mod store;

use date::Date;
use number::Decimal;
pub use store::{open_rows, readings_in};

// What the value of a test reads to: its bytes alone, a number, or a date. It takes half as much memory as what a reading says of both.
#[derive(Clone, Copy)]
pub enum ValueReading {
    Bytes,
    Number(Decimal),
    Date(Date),
}

// What is known of the value of a test: whether it has escapes; whether it is true, for pr; where its bytes stand in the text; and what they
// read to.
#[derive(Clone, Copy)]
pub struct Opened {
    // no Options: a value that was opened has all its parts, whatever the flags say
    pub escaped: bool,
    pub truth: bool,
    pub start: u16,
    pub end: u16,
    pub reading: ValueReading,
}
