// Dates. A text reads to a span of whole seconds, or is unreadable. `days` has the calendar, `seconds` makes dates of
// numbers of days and seconds, and `reader` reads the texts.
#![tactic(auto)]

mod days;
mod reader;
mod seconds;

pub use reader::read;

// A date: the seconds from `start` up to but without `end`, counted from 1970-01-01T00:00:00Z and negative before it.
#[derive(Clone, Copy)]
pub struct Date {
    pub start: i64,
    pub end: i64,
}
