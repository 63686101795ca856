// Numbers: texts of 1 to 8 digits, perhaps with "." and 1 to 9 decimals, and their relations by exact value.
// Every number that can be written is a whole count of billionths below ten to the seventeenth, which a u64 holds.
#![tactic(auto)]

ghost use Rattle.std.specs.Prelude.{◌≡◌, ◌^◌, ◌≤◌, ◌<◌, length};
ghost use Rattle.base.specs.Digits.{is_digit};
ghost use Rattle.base.specs.Runs.{run};
ghost use Rattle.number.specs.Value.{Bounded, greater, less, at_least, at_most, covers};
ghost use Rattle.number.specs.Reading.{DigitText, value_from, read_fraction, read};
ghost use Rattle.number.specs.Billionths.{unit, billionths, inside};

// A number as it is written: its digits as one integer, and how many of them are decimals.
#[derive(Clone, Copy)]
pub struct Decimal {
    pub digits: u64,
    pub decimals: usize,
}

// How many digits the text begins with.
fn digit_run(s: &[u8]) -> usize
    ensures { (result ≡ run is_digit s.now) × (result ≤ length s.now) }
{
    for (i, b) in s.iter().enumerate() {
        if !b.is_ascii_digit() {
            return i;
        }
    }
    s.len()
}

// The digits of the text written after the number before.
fn value_from(before: u64, s: &[u8]) -> u64
    requires before_bound { before < 10 ^ 8 }
    requires digit_text { DigitText s.now }
    ensures { result ≡ value_from before s.now }
{
    let mut value = before;
    for b in s {
        value = value * 10 + u64::from(b - b'0');
    }
    value
}

// The decimals that a text writes after the whole part.
fn read_fraction(whole: u64, f: &[u8]) -> Option<Decimal>
    requires { whole < 10 ^ 8 }
    ensures { result ≡ read_fraction whole f.now }
{
    if f.len() < 1 {
        return None;
    }
    if f.len() > 9 {
        return None;
    }
    if digit_run(f) < f.len() {
        return None;
    }
    Some(Decimal {
        digits: value_from(whole, f),
        decimals: f.len(),
    })
}

// What a text reads to: "1 to 8 digits, then perhaps "." and 1 to 9 digits. No sign, no exponent."
pub fn read(s: &[u8]) -> Option<Decimal>
    ensures { result ≡ read s.now }
{
    let run = digit_run(s);
    if run < 1 {
        return None;
    }
    if run > 8 {
        return None;
    }
    let whole = value_from(0, &s[..run]);
    if run == s.len() {
        return Some(Decimal {
            digits: whole,
            decimals: 0,
        });
    }
    if s[run] != b'.' {
        return None;
    }
    read_fraction(whole, &s[run + 1..])
}

// One unit of the last digit in billionths, by the count of decimals.
const UNITS: [u64; 10] = [
    1_000_000_000,
    100_000_000,
    10_000_000,
    1_000_000,
    100_000,
    10_000,
    1_000,
    100,
    10,
    1,
];

// One unit of the last digit, in billionths.
// `Bounded` stays a clause: the definition read_fraction makes Decimals of any digits, so a ghost field would put proofs into it; and with
// a model a Copy struct that holds a Decimal is moved when it is handed on: card_reader::listed::next_counting then had no proof.
fn unit(d: Decimal) -> u64
    requires { Bounded d }
    ensures { (result ≡ unit d) × (result ≤ 10 ^ 9) }
{
    UNITS[d.decimals]
}

// The number in billionths.
fn billionths(d: Decimal) -> u64
    requires { Bounded d }
    ensures { (result ≡ billionths d) × (result < 10 ^ 17) }
{
    d.digits * unit(d)
}

// eq: "the filter's range holds the card's range whole, a number's range being half a unit of its last digit to either
// side". Twice the billionths keep half a unit whole; a lower end may lie below zero, so both sides have a unit added.
pub fn inside(i: Decimal, f: Decimal) -> bool
    requires bounded { Bounded i }
    requires bounded_2 { Bounded f }
    ensures { result ≡ inside i f }
{
    let card = 2 * billionths(i);
    let filter = 2 * billionths(f);
    let narrow = unit(i);
    let wide = unit(f);
    filter + narrow <= card + wide && card + narrow <= filter + wide
}

// gt, by exact value.
pub fn greater(i: Decimal, f: Decimal) -> bool
    requires bounded { Bounded i }
    requires bounded_2 { Bounded f }
    ensures { result ≡ greater i f }
{
    less(f, i)
}

// lt, by exact value.
pub fn less(i: Decimal, f: Decimal) -> bool
    requires bounded { Bounded i }
    requires bounded_2 { Bounded f }
    ensures { result ≡ less i f }
{
    billionths(i) < billionths(f)
}

// ge, by exact value.
pub fn at_least(i: Decimal, f: Decimal) -> bool
    requires bounded { Bounded i }
    requires bounded_2 { Bounded f }
    ensures { result ≡ at_least i f }
{
    at_most(f, i)
}

// le, by exact value.
pub fn at_most(i: Decimal, f: Decimal) -> bool
    requires bounded { Bounded i }
    requires bounded_2 { Bounded f }
    ensures { result ≡ at_most i f }
{
    billionths(i) <= billionths(f)
}

// co: f lies in the range of i, "half a unit of I's last digit below to the same above, the lower end in, the upper out".
pub fn covers(i: Decimal, f: Decimal) -> bool
    requires bounded { Bounded i }
    requires bounded_2 { Bounded f }
    ensures { result ≡ covers i f }
{
    let middle = 2 * billionths(i);
    let asked = 2 * billionths(f);
    let half = unit(i);
    middle <= asked + half && asked < middle + half
}
