// Dates from numbers of days and seconds. Local seconds are counted from 0001-01-01T00:00:00 on the clock of the date's
// own zone; a zone offset is in minutes, negative west of UTC.
ghost use Rattle.std.specs.Prelude.{◌≡◌, ℤ, ◌+◌, ◌^◌, ◌<◌};
ghost use Rattle.date.specs.Spans.{instant, date_of, days_from, second_of_day, second_from};
ghost use Rattle.date.specs.Fields.{ValidTime, ValidOffset};

use crate::Date;
use std::marker::Model;

// The seconds from 0001-01-01T00:00:00 to 1970-01-01T00:00:00.
const EPOCH: i64 = 62135596800;

// A zone's offset in minutes, which is one that a zone has. A clause sees the minutes.
#[derive(Clone, Copy)]
pub struct Offset {
    pub minutes: i64,
}

impl Model for Offset {
    ghost Value = { ℤ };

    ghost view = { λ offset. offset.minutes };

    ghost invariant = { λ offset. ValidOffset offset.minutes };

    ghost inverse = { λ minutes. record { minutes = minutes } };
}

// The instant of a local second, "counted from 1970-01-01T00:00:00Z and negative before it": the zone offset is
// subtracted with its sign.
fn instant(local: u64, offset: Offset) -> i64
    requires { local < 2 ^ 40 }
    ensures { result ≡ instant local offset }
{
    local as i64 - EPOCH - offset.minutes * 60
}

// The date from one local second up to another.
pub fn date_of(from: u64, to: u64, offset: Offset) -> Date
    requires { (from < 2 ^ 40) × (to < 2 ^ 40) }
    ensures { result ≡ date_of from to offset }
{
    Date {
        start: instant(from, offset),
        end: instant(to, offset),
    }
}

// The date of some days from a day on, in UTC.
pub fn days_from(first: u64, count: u64) -> Date
    requires { first + count < 4000000 }
    ensures { result ≡ days_from first count }
{
    date_of(
        first * 86400,
        (first + count) * 86400,
        Offset { minutes: 0 },
    )
}

// The second of the day at which a time of the day starts.
pub fn second_of_day(hour: u64, minute: u64, second: u64) -> u64
    requires { ValidTime hour minute second }
    ensures { result ≡ second_of_day hour minute second }
{
    hour * 3600 + minute * 60 + second
}

// The date of one second of a day, at a zone offset.
pub fn second_from(day: u64, second: u64, offset: Offset) -> Date
    requires { (day < 4000000) × (second < 86400) }
    ensures { result ≡ second_from day second offset }
{
    let from = day * 86400 + second;
    date_of(from, from + 1, offset)
}
