// Values opened once for many cards: what each reads to.
ghost use Rattle.std.specs.Prelude.{◌≡◌, ◌≤◌, ◌<◌, length};
ghost use Rattle.syntax.specs.Placed.{PlacedValue};
ghost use Rattle.rows.specs.Shapes.{value_in};
ghost use Rattle.row_opener.specs.Opening.{reading_of, readings_in, opened_value, opened_for, opened_row, Opens};

use crate::{Opened, ValueReading};
use judge::readings_for;
use kind::{Meaning, Readings};
use rows::{Probe, Row, row_of};
use syntax::{FilterText, RawValue};

// ---- what it reads to

// What reads to a number is not read as a date.
#[tactic(auto, unfolding(crate::specs::Opening::reading_of))]
fn reading_of(readings: Readings) -> ValueReading
    ensures { result ≡ reading_of readings }
{
    match (readings.number, readings.date) {
        (Some(n), _) => ValueReading::Number(n),
        (None, Some(d)) => ValueReading::Date(d),
        (None, None) => ValueReading::Bytes,
    }
}

// What a reading says, as judging asks it.
#[tactic(auto, unfolding(crate::specs::Opening::readings_in))]
pub fn readings_in(reading: ValueReading) -> Readings
    ensures { result ≡ readings_in reading }
{
    match reading {
        ValueReading::Number(n) => Readings {
            number: Some(n),
            date: None,
        },
        ValueReading::Date(d) => Readings {
            number: None,
            date: Some(d),
        },
        ValueReading::Bytes => Readings {
            number: None,
            date: None,
        },
    }
}

// ---- the value of a test

// Of a value of the text with these bytes.
fn opened_value(meaning: Meaning, value: RawValue, bytes: &[u8]) -> Opened
    requires start_bound { value.start ≤ 1024 }
    requires end_bound { value.end ≤ 1024 }
    ensures { result ≡ opened_value meaning value bytes.now }
{
    Opened {
        escaped: value.escaped,
        truth: kind::is_true(bytes),
        start: value.start as u16,
        end: value.end as u16,
        reading: reading_of(readings_for(meaning, bytes)),
    }
}

// Of a value of the filter.
fn opened_text(meaning: Meaning, filter: &FilterText<'_>, value: RawValue) -> Opened
    requires placed_value { PlacedValue filter.now value }
    ensures { result ≡ opened_value meaning value (value_in filter.now value) }
{
    // its size is known by its type
    let _ = &filter.bytes;
    filter.of_value(value, |bytes| opened_value(meaning, value, bytes))
}

// Of a test, if it has a value.
fn opened_probe(kinds: &[u8; 32], filter: &FilterText<'_>, probe: Probe) -> Option<Opened>
    requires index_bound { probe.index < 32 }
    ensures { result ≡ opened_for kinds.now filter.now probe }
{
    let index = usize::from(probe.index);
    let kind = kinds[index];
    let value = filter.read_value(probe.position)?;
    let meaning = kind::meaning_of(probe.operator, kind);
    Some(opened_text(meaning, filter, value))
}

// Of a row: only that of a test has a value.
fn opened_row(kinds: &[u8; 32], filter: &FilterText<'_>, cell: u32) -> Option<Opened>
    ensures { result ≡ opened_row kinds.now filter.now cell }
{
    match row_of(cell) {
        Row::Test(probe) => opened_probe(kinds, filter, probe),
        Row::Bracket(_) => None,
        Row::Not => None,
        Row::Connect(_, _) => None,
        Row::Unknown => None,
    }
}

// Opens rows: each has its value at its own place, if it has one.
pub fn open_rows(
    kinds: &[u8; 32],
    filter: &FilterText<'_>,
    rows: &[u32],
    values: &mut [Option<Opened>],
)
    requires rows_in_bounds { length rows.now ≤ length values.old }
    ensures { Opens kinds.now filter.now rows.now values.new (length rows.now) }
{
    for (i, &row) in rows.iter().enumerate() {
        values[i] = opened_row(kinds, filter, row);
    }
}
