// A card that is read once for many tests. One pass over its entries sees that their texts are readable as the sheet has it, and keeps what
// the texts read to, chained by parameter; a test then visits the entries of its own parameter alone.
#![tactic(auto)]

mod entries;
mod lending;
mod listed;
mod question;
mod read;
mod related;
mod store;

pub use entries::read_entries;
pub use lending::{keep, kind_at, lend};
pub use listed::{chain_behind, chain_of, next_counting, occurrence_of, some_kept};
use number::Decimal;
use period::Period;
pub use question::Question;
pub use read::ReadCard;

// What a text on a card reads to: its bytes alone, a number, or a span of time.
#[derive(Clone, Copy)]
pub enum TextReading {
    Bytes,
    Number(Decimal),
    Span(Period),
}

// What is kept of an entry: the entry before it under its parameter, counted from 1, or 0 for none; its occurrence; where its text stands in
// the card; and what the text reads to.
#[derive(Clone, Copy)]
pub struct KeptEntry {
    pub behind: u8,
    pub occurrence: u8,
    pub start: u16,
    pub end: u16,
    pub reading: TextReading,
}

// What is kept for a run: the kinds of the parameters, and whether the entries of each are kept; and of a card the last entry under each
// parameter, counted from 1, or 0 for none, and the entries. Bytes, so that an entry takes no more memory: an Option of a byte takes two.
#[derive(Clone, Copy)]
pub struct Kept {
    pub kinds: [u8; 32],
    pub asked: [bool; 32],
    pub last: [u8; 32],
    pub entries: [KeptEntry; 64],
}
