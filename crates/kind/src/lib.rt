// Kinds of parameters: which relation an operator means for a kind, which texts are readable, and whether a card's text
// stands in a relation to a filter's value.
#![tactic(auto)]

mod decision;
mod readable;
mod relate;

use date::Date;
pub use decision::meaning_of;
use number::Decimal;
pub use readable::{card_readable, is_true, value_readable};
pub use relate::{dates_relate, numbers_relate, readings_of, relates_read, unread};

// The relations of strings: same, holds it somewhere, at the start, at the end.
#[derive(Clone, Copy)]
pub enum StringRelation {
    Same,
    Contains,
    Starts,
    Ends,
}

// The relations of numbers, the card's against the filter's.
#[derive(Clone, Copy)]
pub enum NumberRelation {
    Inside,
    Greater,
    Less,
    AtLeast,
    AtMost,
    Covers,
}

// The relations of a card's date or period and a filter's date.
#[derive(Clone, Copy)]
pub enum DateRelation {
    Inside,
    Later,
    Earlier,
    LaterOrInside,
    EarlierOrInside,
    StartsAfter,
    EndsBefore,
    Overlaps,
    Covers,
}

// A relation of a card's text and a filter's value.
#[derive(Clone, Copy)]
pub enum Relation {
    Strings(StringRelation),
    Numbers(NumberRelation),
    Dates(DateRelation),
    Tokens,
    References,
}

// What a filter's value reads to as a number and as a date, where a relation asks for that.
#[derive(Clone, Copy)]
pub struct Readings {
    pub number: Option<Decimal>,
    pub date: Option<Date>,
}

// What an operator means for a kind: whether there is a text at all; that some text stands in the relation, or that
// some text does not; or nothing, which is an arm as the others are, since the table of operators and kinds has it in its places.
#[derive(Clone, Copy)]
pub enum Meaning {
    Present,
    Relates(Relation),
    Differs(Relation),
    Nothing,
}
