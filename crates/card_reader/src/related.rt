// Whether what a text of a card reads to stands in a relation to a filter's value: no number, date or period is read again.
ghost use Rattle.std.specs.Prelude.{◌≡◌, Some};
ghost use Rattle.number.specs.Value.{Bounded};
ghost use Rattle.kind.specs.Relations.{Kept, number_readings_relate, date_readings_relate, relates_read};
ghost use Rattle.judge.specs.Once.{counts_read};
ghost use Rattle.card_reader.specs.Readings.{Serves};

use crate::TextReading;
use date::Date;
use kind::{
    DateRelation, Meaning, NumberRelation, Readings, Relation, dates_relate, numbers_relate,
    relates_read,
};
use number::Decimal;
use period::Period;

// A card's number and what a filter's value reads to.
fn number_relates(relation: NumberRelation, i: Decimal, value: Option<Decimal>) -> bool
    requires bounded { Bounded i }
    requires kept { Kept value }
    ensures { result ≡ number_readings_relate relation (Some i) value }
{
    let Some(f) = value else {
        return false;
    };
    numbers_relate(relation, i, f)
}

// A card's span and what a filter's value reads to. A number's function has another type and another relation.
fn span_relates(relation: DateRelation, i: Period, value: Option<Date>) -> bool
    ensures { result ≡ date_readings_relate relation (Some i) value }
{
    let Some(f) = value else {
        return false;
    };
    dates_relate(relation, i, f)
}

// A text of a card that was read, and a filter's value that was read.
fn reading_relates(
    relation: Relation,
    text: &[u8],
    read: TextReading,
    value: &[u8],
    readings: Readings,
) -> bool
    requires serves { Serves text.now read }
    requires kept { Kept readings.number }
    ensures { result ≡ relates_read relation text.now value.now readings }
{
    match (relation, read) {
        (Relation::Numbers(r), TextReading::Number(i)) => number_relates(r, i, readings.number),
        (Relation::Dates(r), TextReading::Span(i)) => span_relates(r, i, readings.date),
        _ => relates_read(relation, text, value, readings),
    }
}

// Whether a text of a card that was read counts for a meaning and a value that was read.
pub fn reading_counts(
    meaning: Meaning,
    text: &[u8],
    read: TextReading,
    value: &[u8],
    readings: Readings,
) -> bool
    requires serves { Serves text.now read }
    requires kept { Kept readings.number }
    ensures { result ≡ counts_read meaning value.now readings text.now }
{
    match meaning {
        Meaning::Present => true,
        Meaning::Relates(relation) => reading_relates(relation, text, read, value, readings),
        Meaning::Differs(relation) => !reading_relates(relation, text, read, value, readings),
        Meaning::Nothing => false,
    }
}
