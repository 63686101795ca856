// The Gregorian calendar, used throughout: lengths of years and months and numbers of days, by arithmetic. And which
// numbers may stand in the fields of a date's text.
ghost use Rattle.std.specs.Prelude.{◌≡◌};
ghost use Rattle.date.specs.Calendar.{leap_year, year_length, month_length, days_before_month, day_number};
ghost use Rattle.date.specs.Fields.{valid_year, valid_month, valid_day, valid_time, ValidMonth, ValidDay};

// Whether a year is a leap year.
fn leap_year(y: u64) -> bool
    ensures { result ≡ leap_year y }
{
    y % 4 == 0 && (y % 100 != 0 || y % 400 == 0)
}

// The days of a year.
pub fn year_length(y: u64) -> u64
    ensures { result ≡ year_length y }
{
    if leap_year(y) {
        return 366;
    }
    365
}

// The days of a month: February's by the kind of year, the others' 30 or 31 by turns, July and August both 31.
pub fn month_length(y: u64, m: u64) -> u64
    requires { ValidMonth y m }
    ensures { result ≡ month_length (leap_year y) m }
{
    if m == 2 {
        if leap_year(y) {
            return 29;
        }
        return 28;
    }
    30 + (m + m / 8) % 2
}

// The days of the year before a month, by arithmetic on its number: February counts as 30 there, so after it one or two
// days are taken off.
fn days_before_month(y: u64, m: u64) -> u64
    requires { ValidMonth y m }
    ensures { result ≡ days_before_month (leap_year y) m }
{
    let n = (367 * m - 362) / 12;
    if m <= 2 {
        return n;
    }
    if leap_year(y) {
        return n - 1;
    }
    n - 2
}

// The number of a day, 0 on 0001-01-01: the days of the whole years, one more in each leap year, of the months and of
// this month before it.
pub fn day_number(y: u64, m: u64, d: u64) -> u64
    requires { ValidDay y m d }
    ensures { result ≡ day_number y m d }
{
    let p = y - 1;
    365 * p + (p / 4 - p / 100 + p / 400) + days_before_month(y, m) + (d - 1)
}

// Whether a year can be written: "Years 0001 to 9999".
#[tactic(auto, unfolding(base::specs::Between::between))]
pub fn valid_year(y: u64) -> bool
    ensures { result ≡ valid_year y }
{
    matches!(y, 1..=9999)
}

// Whether it is a month of such a year: "months 01 to 12".
#[tactic(auto, unfolding(crate::specs::Fields::valid_month, base::specs::Between::between))]
pub fn valid_month(y: u64, m: u64) -> bool
    ensures { result ≡ valid_month y m }
{
    valid_year(y) && matches!(m, 1..=12)
}

// Whether it is a day of such a month: "only days which that month has".
pub fn valid_day(y: u64, m: u64, d: u64) -> bool
    ensures { result ≡ valid_day y m d }
{
    valid_month(y, m) && (1..=month_length(y, m)).contains(&d)
}

// Whether it is a time of the day: "hours 00 to 23, seconds 00 to 59".
pub fn valid_time(h: u64, m: u64, s: u64) -> bool
    ensures { result ≡ valid_time h m s }
{
    h <= 23 && (m <= 59 && s <= 59)
}
