// Reads the spellings of dates. A number that is not there is read as one that is too large for its field, and the tests
// of the fields refuse it.
ghost use Rattle.std.specs.Prelude.{◌≡◌, ◌+◌, ◌≤◌, length};
ghost use Rattle.date.specs.Texts.{digit_of, pair, two_at, four_at, field_at, signed, zone_at, read_year, read_month, read_day, read_local, read};

use crate::seconds::Offset;
use crate::{Date, days, seconds};

// The number that a digit writes; 10 where the byte is no digit.
#[tactic(auto, unfolding(crate::specs::Texts::digit_of, base::specs::Digits::is_digit))]
fn digit_of(b: u8) -> u64
    ensures { result ≡ digit_of b }
{
    if b.is_ascii_digit() {
        return u64::from(b - b'0');
    }
    10
}

// The number that two numbers below a radix write together; the radix squared where one is not below it.
fn pair(radix: u64, a: u64, b: u64) -> u64
    requires { radix ≤ 100 }
    ensures { result ≡ pair radix a b }
{
    if a < radix && b < radix {
        return a * radix + b;
    }
    radix * radix
}

// The number of the two digits at a position; 100 where one is no digit.
fn two_at(s: &[u8], at: usize) -> u64
    requires { at + 2 ≤ length s.now }
    ensures { result ≡ two_at s.now at }
{
    pair(10, digit_of(s[at]), digit_of(s[at + 1]))
}

// The number of the four digits at a position; 10000 where one is no digit.
fn four_at(s: &[u8], at: usize) -> u64
    requires { at + 4 ≤ length s.now }
    ensures { result ≡ four_at s.now at }
{
    pair(100, two_at(s, at), two_at(s, at + 2))
}

// The number of the two digits behind a mark at a position; 100 where the mark or a digit is missing.
fn field_at(s: &[u8], at: usize, mark: u8) -> u64
    requires { at + 3 ≤ length s.now }
    ensures { result ≡ field_at s.now at mark }
{
    if s[at] == mark {
        return two_at(s, at + 1);
    }
    100
}

// The offset in minutes, negative west of UTC, of "a zone of +hh:mm or -hh:mm, at most 14:00 either way, minutes 00 to
// 59". Its sign is made here, and nowhere else.
fn signed(sign: u8, h: u64, m: u64) -> Option<Offset>
    requires { (h ≤ 100) × (m ≤ 100) }
    ensures { result ≡ signed sign h m }
{
    if m > 59 {
        return None;
    }
    let minutes = h * 60 + m;
    if minutes > 840 {
        return None;
    }
    let east = minutes as i64;
    match sign {
        b'+' => Some(Offset { minutes: east }),
        b'-' => Some(Offset { minutes: -east }),
        _ => None,
    }
}

// The offset of the zone from a position to the end of the text: "Z or a zone".
fn zone_at(s: &[u8], at: usize) -> Option<Offset>
    requires { at + 1 ≤ length s.now }
    ensures { result ≡ zone_at s.now at }
{
    if s.len() == at + 1 {
        if s[at] == b'Z' {
            return Some(Offset { minutes: 0 });
        }
        return None;
    }
    if s.len() == at + 6 {
        return signed(s[at], two_at(s, at + 1), field_at(s, at + 3, b':'));
    }
    None
}

// YYYY: the year.
fn read_year(s: &[u8]) -> Option<Date>
    requires { 4 ≤ length s.now }
    ensures { result ≡ read_year s.now }
{
    let y = four_at(s, 0);
    if days::valid_year(y) {
        return Some(seconds::days_from(days::day_number(y, 1, 1), days::year_length(y)));
    }
    None
}

// YYYY-MM: the month.
fn read_month(s: &[u8]) -> Option<Date>
    requires { 7 ≤ length s.now }
    ensures { result ≡ read_month s.now }
{
    let y = four_at(s, 0);
    let m = field_at(s, 4, b'-');
    if days::valid_month(y, m) {
        return Some(seconds::days_from(days::day_number(y, m, 1), days::month_length(y, m)));
    }
    None
}

// YYYY-MM-DD: the day.
fn read_day(s: &[u8]) -> Option<Date>
    requires { 10 ≤ length s.now }
    ensures { result ≡ read_day s.now }
{
    let y = four_at(s, 0);
    let m = field_at(s, 4, b'-');
    let d = field_at(s, 7, b'-');
    if days::valid_day(y, m, d) {
        return Some(seconds::days_from(days::day_number(y, m, d), 1));
    }
    None
}

// YYYY-MM-DDThh:mm:ss: the second, at a zone offset.
fn read_local(s: &[u8], offset: Offset) -> Option<Date>
    requires { 19 ≤ length s.now }
    ensures { result ≡ read_local s.now offset }
{
    let y = four_at(s, 0);
    let m = field_at(s, 4, b'-');
    let d = field_at(s, 7, b'-');
    if days::valid_day(y, m, d) {
        let hour = field_at(s, 10, b'T');
        let minute = field_at(s, 13, b':');
        let second = field_at(s, 16, b':');
        if days::valid_time(hour, minute, second) {
            return Some(seconds::second_from(
                days::day_number(y, m, d),
                seconds::second_of_day(hour, minute, second),
                offset,
            ));
        }
    }
    None
}

// What a text reads to: "YYYY, YYYY-MM, YYYY-MM-DD, or YYYY-MM-DDThh:mm:ss with Z or a zone".
pub fn read(s: &[u8]) -> Option<Date>
    ensures { result ≡ read s.now }
{
    if s.len() == 4 {
        return read_year(s);
    }
    if s.len() == 7 {
        return read_month(s);
    }
    if s.len() == 10 {
        return read_day(s);
    }
    if s.len() < 20 {
        return None;
    }
    let offset = zone_at(s, 19)?;
    read_local(s, offset)
}
