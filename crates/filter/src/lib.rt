// Filters read on a sheet: a filter and an item call each other, and the text left and the nesting left fall.
#![tactic(auto)]

mod check;

ghost use Rattle.std.specs.Prelude.{◌≡◌};
ghost use Rattle.filter.specs.Walks.{top_spot};

pub use check::{check_filter, join_summaries, test_summary};
use refusal::Refusal;
use syntax::scan::skip;

// A position in the filter's text, how many brackets may still open around it, the byte that closes the one around it, and where
// names are looked up: 0 at the top of the sheet, or a bundle's index plus 1.
// That a position is within the text is a clause of each walk: it comes out of a bracket or a connective that was read, in which no text
// is held, so that a spot with the text would have to be made, and its fact proved, at each call.
#[derive(Clone, Copy)]
pub struct Spot {
    pub at: usize,
    pub levels: usize,
    pub close: u8,
    pub bundle: u8,
}

// A spot one level further in is made where a bracket opens, in each walk: a method that answers it, or nothing at the last level, would have to
// state in clauses each field that a literal shows.

// What reading gathers: the number of tests, and the first refusal among them.
#[derive(Clone, Copy)]
pub struct Summary {
    pub tests: usize,
    pub first: Result<(), Refusal>,
}

// Where a filter or an item that was read ends, and what was gathered.
#[derive(Clone, Copy)]
pub struct Walked {
    pub end: usize,
    pub summary: Summary,
}

// Where the whole filter begins: behind leading spaces, with 8 levels of brackets below it, at the top of the sheet.
pub fn top(filter: &[u8]) -> Spot
    ensures { result ≡ top_spot filter.now }
{
    Spot {
        at: skip(filter, 0),
        levels: 8,
        close: b')',
        bundle: 0,
    }
}
