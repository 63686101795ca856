// Whether a card's text stands in a relation to a filter's value.
ghost use Rattle.std.specs.Prelude.{◌≡◌};
ghost use Rattle.number.specs.Value.{Bounded};
ghost use Rattle.kind.specs.Relations.{Kept, strings_relate, numbers_relate, dates_relate, unread, readings_of, relates_read};

use crate::{DateRelation, NumberRelation, Readings, Relation, StringRelation};
use date::Date;
use number::Decimal;
use period::Period;

// A card's text and a filter's value, as they are written.
fn strings_relate(relation: StringRelation, text: &[u8], value: &[u8]) -> bool
    ensures { result ≡ strings_relate relation text.now value.now }
{
    match relation {
        StringRelation::Same => text::same(text, value),
        StringRelation::Contains => text::contains(text, value),
        StringRelation::Starts => text::starts(text, value),
        StringRelation::Ends => text::ends(text, value),
    }
}

// A card's number and a filter's.
// `Bounded`, and `Kept` below, stay clauses: number::unit says why no type holds them.
pub fn numbers_relate(relation: NumberRelation, i: Decimal, f: Decimal) -> bool
    requires bounded { Bounded i }
    requires bounded_2 { Bounded f }
    ensures { result ≡ numbers_relate relation i f }
{
    match relation {
        NumberRelation::Inside => number::inside(i, f),
        NumberRelation::Greater => number::greater(i, f),
        NumberRelation::Less => number::less(i, f),
        NumberRelation::AtLeast => number::at_least(i, f),
        NumberRelation::AtMost => number::at_most(i, f),
        NumberRelation::Covers => number::covers(i, f),
    }
}

// A card's period, which a date is too, and a filter's date.
pub fn dates_relate(relation: DateRelation, i: Period, f: Date) -> bool
    ensures { result ≡ dates_relate relation i f }
{
    match relation {
        DateRelation::Inside => period::inside(i, f),
        DateRelation::Later => period::later(i, f),
        DateRelation::Earlier => period::earlier(i, f),
        DateRelation::LaterOrInside => period::later_or_inside(i, f),
        DateRelation::EarlierOrInside => period::earlier_or_inside(i, f),
        DateRelation::StartsAfter => period::starts_after(i, f),
        DateRelation::EndsBefore => period::ends_before(i, f),
        DateRelation::Overlaps => period::overlaps(i, f),
        DateRelation::Covers => period::covers(i, f),
    }
}

// Of a value whose bytes are compared.
pub fn unread() -> Readings
    ensures { result ≡ unread }
{
    Readings {
        number: None,
        date: None,
    }
}

// What a filter's value reads to, where the relation compares what texts read to.
pub fn readings_of(relation: Relation, value: &[u8]) -> Readings
    ensures { result ≡ readings_of relation value.now }
{
    match relation {
        Relation::Strings(_) => unread(),
        Relation::Numbers(_) => Readings {
            number: number::read(value),
            date: None,
        },
        Relation::Dates(_) => Readings {
            number: None,
            date: date::read(value),
        },
        Relation::Tokens => unread(),
        Relation::References => unread(),
    }
}

// Whether the card's text stands in the relation to the filter's value, which was read already.
#[tactic(auto, unfolding(crate::specs::Relations::relates_read))]
pub fn relates_read(relation: Relation, text: &[u8], value: &[u8], readings: Readings) -> bool
    requires { Kept readings.number }
    ensures { result ≡ relates_read relation text.now value.now readings }
{
    match relation {
        Relation::Strings(r) => strings_relate(r, text, value),
        Relation::Numbers(r) => number::read(text)
            .zip(readings.number)
            .is_some_and(|(i, f)| numbers_relate(r, i, f)),
        Relation::Dates(r) => period::read_span(text)
            .zip(readings.date)
            .is_some_and(|(i, f)| dates_relate(r, i, f)),
        Relation::Tokens => token::matches(text, value),
        Relation::References => text::same(text, value),
    }
}
