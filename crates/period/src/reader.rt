// Reads the spellings of periods: two dates with a slash between, of which one may be missing.
ghost use Rattle.std.specs.Prelude.{◌≡◌};
ghost use Rattle.std.specs.Int.Signed.{lt_z};
ghost use Rattle.date.specs.Texts as texts;
ghost use Rattle.period.specs.Texts.{known, from_to, both_ends, open_end, open_start, read_parts, read, read_span};

use crate::Period;
use date::Date;

// A card's date: the period with both ends known.
pub fn known(d: Date) -> Period
    ensures { result ≡ known d }
{
    Period {
        start: Some(d.start),
        end: Some(d.end),
    }
}

// Whether the span from the start of `a` to the end of `b` ends after it starts.
fn in_order(a: Date, b: Date) -> bool
    ensures { result ≡ lt_z a.start b.end }
{
    a.start < b.end
}

// "From the start of the first to the end of the second"; "a span that would not end after it starts is unreadable".
fn from_to(a: Date, b: Date) -> Option<Period>
    ensures { result ≡ from_to a b }
{
    if in_order(a, b) {
        return Some(Period {
            start: Some(a.start),
            end: Some(b.end),
        });
    }
    None
}

// Two dates.
fn both_ends(first: &[u8], second: &[u8]) -> Option<Period>
    ensures { result ≡ both_ends (texts.read first.now) (texts.read second.now) }
{
    let a = date::read(first)?;
    let b = date::read(second)?;
    from_to(a, b)
}

// The first alone: the end is missing.
fn open_end(first: &[u8]) -> Option<Period>
    ensures { result ≡ open_end (texts.read first.now) }
{
    let a = date::read(first)?;
    Some(Period {
        start: Some(a.start),
        end: None,
    })
}

// The second alone: the start is missing.
fn open_start(second: &[u8]) -> Option<Period>
    ensures { result ≡ open_start (texts.read second.now) }
{
    let b = date::read(second)?;
    Some(Period {
        start: None,
        end: Some(b.end),
    })
}

// What stands before the slash and behind it: "either one missing but not both", since no empty text is a date.
fn read_parts(first: &[u8], second: &[u8]) -> Option<Period>
    ensures { result ≡ read_parts first.now second.now }
{
    if first.len() == 0 {
        return open_start(second);
    }
    if second.len() == 0 {
        return open_end(first);
    }
    both_ends(first, second)
}

// What a text reads to: "two dates with a slash between". No date has a slash, so the first one is it.
pub fn read(s: &[u8]) -> Option<Period>
    ensures { result ≡ read s.now }
{
    let slash = base::first_of(s, b'/');
    if slash < s.len() {
        let after = slash + 1;
        return read_parts(&s[..slash], &s[after..]);
    }
    None
}

// The span of a card's text, a date or a period.
pub fn read_span(s: &[u8]) -> Option<Period>
    ensures { result ≡ read_span s.now }
{
    date::read(s).map(known).or_else(|| read(s))
}
