// Periods. A card's text reads to a period, whose ends may be missing, or is unreadable; a card's date is the period with
// both ends known. A card's period and a filter's date stand in the relations that the filter's operations ask for.
#![tactic(auto)]

mod compare;
mod reader;

pub use compare::{
    covers, earlier, earlier_or_inside, ends_before, inside, later, later_or_inside, overlaps,
    starts_after,
};
pub use reader::{known, read, read_span};

// A period: the seconds from `start` up to but without `end`, counted from 1970-01-01T00:00:00Z. A missing end is None: a
// missing start lies before every date that can be written, a missing end behind it.
#[derive(Clone, Copy)]
pub struct Period {
    pub start: Option<i64>,
    pub end: Option<i64>,
}
