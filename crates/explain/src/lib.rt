// Why a filter says what it says of a card (02: "why this card?"): the tests that decide, over the rows of the filter.
#![tactic(auto)]

mod operation;

pub use operation::explain;
