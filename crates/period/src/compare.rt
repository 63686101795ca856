// The relations of a card's period `i` and a filter's date `f`. Over each stand the operation that asks for it and the rule;
// the period runs from i0 to i1, and the date from f0 to f1.
ghost use Rattle.std.specs.Prelude.{◌≡◌};
ghost use Rattle.period.specs.Relations.{starts_before, starts_no_later, ends_after, ends_no_earlier, inside, later, earlier, later_or_inside, earlier_or_inside, starts_after, ends_before, overlaps, covers};

use crate::Period;
use date::Date;

// Whether a start lies before an instant; a missing one does.
#[tactic(auto, unfolding(crate::specs::Relations::starts_before))]
fn starts_before(start: Option<i64>, t: i64) -> bool
    ensures { result ≡ starts_before start t }
{
    start.is_none_or(|s| s < t)
}

// Whether an end lies behind an instant; a missing one does.
#[tactic(auto, unfolding(crate::specs::Relations::ends_after))]
fn ends_after(end: Option<i64>, t: i64) -> bool
    ensures { result ≡ ends_after end t }
{
    end.is_none_or(|e| e > t)
}

// gt: "i1>f1".
pub fn later(i: Period, f: Date) -> bool
    ensures { result ≡ later i f }
{
    ends_after(i.end, f.end)
}

// lt: "i0<f0".
pub fn earlier(i: Period, f: Date) -> bool
    ensures { result ≡ earlier i f }
{
    starts_before(i.start, f.start)
}

// eq: "the filter's range holds the card's range whole"; "I inside F".
#[tactic(auto, unfolding(crate::specs::Relations::inside))]
pub fn inside(i: Period, f: Date) -> bool
    ensures { result ≡ inside i f }
{
    !earlier(i, f) && !later(i, f)
}

// ge: "gt or I inside F".
#[tactic(auto, unfolding(crate::specs::Relations::later_or_inside))]
pub fn later_or_inside(i: Period, f: Date) -> bool
    ensures { result ≡ later_or_inside i f }
{
    later(i, f) || inside(i, f)
}

// le: "lt or I inside F".
#[tactic(auto, unfolding(crate::specs::Relations::earlier_or_inside))]
pub fn earlier_or_inside(i: Period, f: Date) -> bool
    ensures { result ≡ earlier_or_inside i f }
{
    earlier(i, f) || inside(i, f)
}

// Whether i starts before f ends: "i0<f1".
fn starts_before_end(i: Period, f: Date) -> bool
    ensures { result ≡ starts_before i.start f.end }
{
    starts_before(i.start, f.end)
}

// Whether i ends after f starts: "f0<i1".
fn ends_after_start(i: Period, f: Date) -> bool
    ensures { result ≡ ends_after i.end f.start }
{
    ends_after(i.end, f.start)
}

// sa: "i0>=f1".
pub fn starts_after(i: Period, f: Date) -> bool
    ensures { result ≡ starts_after i f }
{
    !starts_before_end(i, f)
}

// eb: "i1<=f0".
pub fn ends_before(i: Period, f: Date) -> bool
    ensures { result ≡ ends_before i f }
{
    !ends_after_start(i, f)
}

// po: "i0<f1 and f0<i1".
#[tactic(auto, unfolding(crate::specs::Relations::overlaps))]
pub fn overlaps(i: Period, f: Date) -> bool
    ensures { result ≡ overlaps i f }
{
    starts_before_end(i, f) && ends_after_start(i, f)
}

// Whether i starts no later than f; with a missing start it does.
#[tactic(auto, unfolding(crate::specs::Relations::starts_no_later))]
fn starts_no_later(i: Period, f: Date) -> bool
    ensures { result ≡ starts_no_later i.start f.start }
{
    i.start.is_none_or(|s| s <= f.start)
}

// Whether i ends no earlier than f; with a missing end it does.
#[tactic(auto, unfolding(crate::specs::Relations::ends_no_earlier))]
fn ends_no_earlier(i: Period, f: Date) -> bool
    ensures { result ≡ ends_no_earlier i.end f.end }
{
    i.end.is_none_or(|e| f.end <= e)
}

// co: "F inside I".
#[tactic(auto, unfolding(crate::specs::Relations::covers))]
pub fn covers(i: Period, f: Date) -> bool
    ensures { result ≡ covers i f }
{
    starts_no_later(i, f) && ends_no_earlier(i, f)
}
