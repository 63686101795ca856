// Reading a filter: its tests are counted, and the first refusal among them is kept.
ghost use Rattle.std.specs.Prelude.{◌≡◌, Bool, ◌+◌, ◌≤◌, ◌<◌, length};
ghost use Rattle.sheet.specs.Sheet.{parameters_of};
ghost use Rattle.syntax.specs.Tree.{moved};
ghost use Rattle.syntax.specs.Reader.{item_at, filter_at, bracket_at, chosen_at};
ghost use Rattle.filter.specs.Folds.{walked, join_summaries, reading};
ghost use Rattle.filter.specs.Walks.{answer_of};

use crate::{Spot, Summary, Walked};
use judge::test_fault;
use sheet::Sheet;
use syntax::{FilterTest, FilterText, Head};

// Sheet and text are handed on beside a spot: with two, a struct is no shorter than its parts.

// One test, with its first byte at a position, where it may be refused.
pub fn test_summary(
    sheet: &Sheet<'_>,
    bundle: u8,
    test: &FilterTest<'_>,
    position: usize,
) -> Summary
    ensures { result ≡ (reading (parameters_of sheet.now) bundle).one (moved position test.now) }
{
    Summary {
        tests: 1,
        first: test_fault(sheet, bundle, test, position),
    }
}

// What two parts gather together, the first part's refusal before the second's.
pub fn join_summaries(a: Summary, b: Summary) -> Summary
    requires { a.tests + b.tests ≤ 1024 }
    ensures { result ≡ join_summaries a b }
{
    Summary {
        tests: a.tests + b.tests,
        first: a.first.and(b.first),
    }
}

// The filter in round brackets at a spot inside them, after not or without.
#[cycle(checking)]
fn check_round(sheet: &Sheet<'_>, filter: &FilterText<'_>, spot: Spot) -> Option<Walked>
    requires { spot.at ≤ length filter.now }
    ensures { (negated : Bool) → result ≡ answer_of walked (reading (parameters_of sheet.now) spot.bundle) (bracket_at spot.levels filter.now negated spot.at) }
{
    let inside = Spot {
        close: b')',
        ..spot
    };
    let inner = check_filter(sheet, filter, inside)?;
    Some(Walked {
        end: filter.read_close(b')', inner.end)?,
        summary: inner.summary,
    })
}

// The test of a member at a spot, after the filter in square brackets of the bundle whose name ends at `until`; the levels are those in
// the brackets.
#[cycle(checking)]
fn check_chosen(
    sheet: &Sheet<'_>,
    filter: &FilterText<'_>,
    spot: Spot,
    until: usize,
) -> Option<Walked>
    requires at_le_until { spot.at ≤ until }
    requires until_in_bounds { until < length filter.now }
    ensures { result ≡ answer_of walked (reading (parameters_of sheet.now) spot.bundle) (chosen_at spot.levels filter.now spot.close spot.at until) }
{
    let bundle = sheet.enter(spot.bundle, filter.part(spot.at, until));
    let inside = Spot {
        at: filter.skip_after(until),
        levels: spot.levels,
        close: b']',
        bundle,
    };
    let inner = check_filter(sheet, filter, inside)?;
    let raw = filter.read_member(spot.close, inner.end)?;
    let test = FilterTest {
        text: &*filter,
        raw,
    };
    let outer = test_summary(sheet, bundle, &test, spot.at);
    Some(Walked {
        end: raw.value.next,
        summary: join_summaries(outer, inner.summary),
    })
}

// The item at a spot: "a test, a filter in round brackets, or not followed by a filter in round brackets", or the test of a member
// after its bundle's brackets.
#[cycle(checking)]
fn check_item(sheet: &Sheet<'_>, filter: &FilterText<'_>, spot: Spot) -> Option<Walked>
    requires { spot.at ≤ length filter.now }
    ensures { result ≡ answer_of walked (reading (parameters_of sheet.now) spot.bundle) (item_at spot.levels filter.now spot.close spot.at) }
{
    let levels = spot.levels;
    let head = filter.read_head(spot.close, spot.at)?;
    match head {
        Head::Test(raw) => {
            let test = FilterTest {
                text: &*filter,
                raw,
            };
            Some(Walked {
                end: raw.value.next,
                summary: test_summary(sheet, spot.bundle, &test, raw.at),
            })
        }
        Head::Open(next, _) => {
            if levels == 0 {
                return None;
            }
            let inside = Spot {
                at: next,
                levels: levels - 1,
                ..spot
            };
            check_round(sheet, filter, inside)
        }
        Head::Choice(until) => {
            if levels == 0 {
                return None;
            }
            let member = Spot {
                levels: levels - 1,
                ..spot
            };
            check_chosen(sheet, filter, member, until)
        }
    }
}

// The filter at a spot: "one or more items joined by and or or", from left to right.
#[cycle(checking)]
pub fn check_filter(sheet: &Sheet<'_>, filter: &FilterText<'_>, spot: Spot) -> Option<Walked>
    requires { spot.at ≤ length filter.now }
    ensures { result ≡ answer_of walked (reading (parameters_of sheet.now) spot.bundle) (filter_at spot.levels filter.now spot.close spot.at) }
{
    let mut read = check_item(sheet, filter, spot)?;
    // no for: where the next item begins is known when the one before it was read
    while let Some(link) = filter.read_connective(read.end) {
        let next = Spot {
            at: link.next,
            ..spot
        };
        let item = check_item(sheet, filter, next)?;
        read = Walked {
            end: item.end,
            summary: join_summaries(read.summary, item.summary),
        };
    }
    Some(read)
}
