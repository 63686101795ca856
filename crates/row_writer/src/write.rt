// Reading a filter: its rows are written, its tests are counted, and the first refusal among them is kept. A filter and an item call
// each other, and the text left and the nesting left fall.
ghost use Rattle.std.specs.Prelude.{◌≡◌, ◌+◌, ◌≤◌, ◌<◌, length};
ghost use Rattle.sheet.specs.Sheet.{parameters_of};
ghost use Rattle.syntax.specs.Placed.{Placed};
ghost use Rattle.syntax.specs.Scan.{test_of};
ghost use Rattle.rows.specs.Cells.{number_of, cell_of};
ghost use Rattle.row_writer.specs.Writing.{value_place, index_of, probe_for, Read};
ghost use Rattle.row_writer.specs.Steps.{Room, Joinable, WroteTest, WroteNot, WroteClosed, WrotePair, WroteMember, WroteJoin, Inside, ChainedAt, WroteItem, WroteFilter, WroteRound, WroteChosen};

use crate::{Outcome, Written};
use filter::{Spot, Summary, join_summaries, test_summary};
use judge::test_found;
use rows::Row;
use sheet::{Found, Sheet};
use syntax::{Connective, FilterTest, FilterText, Head, RawTest, RawValue};

// Tests are handed on as they stand in the text, since what is written is said of their positions; where judge or filter is asked, a
// test with its text is made.

// Sheet and text, and the list and the row, are handed on one by one, in functions of up to eight parameters: so the definitions have them
// (`WroteItem`, `WroteFilter`, ..), and a struct that holds the lent list would have every clause name the loan. `Room` is asked of spots alone.

// The index of what a test names, and 0 where it names nothing.
fn index_of(found: Option<Found>) -> u32
    ensures { (result ≡ index_of found) × (result ≤ 255) }
{
    found.map_or(0, |found| u32::from(found.index))
}

// Where the value of a test begins: a string's at its quote.
fn value_place(filter: &FilterText<'_>, test: RawTest) -> u32
    requires placed { Placed filter.now test }
    requires read { Read filter.now test }
    ensures { (result ≡ value_place filter.now test.at) × (result ≤ 1024) }
{
    // the size of the text, so that a position in it has room in 32 bits
    let _ = &filter.bytes;
    let value = test.value;
    let quotes = value.next - value.end;
    (value.start - quotes) as u32
}

// The number of a test of the filter, looked up in a bundle.
fn test_number(sheet: &Sheet<'_>, bundle: u8, filter: &FilterText<'_>, test: RawTest) -> u32
    requires placed { Placed filter.now test }
    requires read { Read filter.now test }
    ensures { (result ≡ number_of (probe_for (parameters_of sheet.now) filter.now bundle (test_of filter.now test))) × (result ≤ 2000000) }
{
    let asked = FilterTest {
        text: filter,
        raw: test,
    };
    let index = index_of(test_found(sheet, bundle, &asked));
    let place = value_place(filter, test);
    let operator = u32::from(test.operator);
    index + 32 * (operator + 32 * place)
}

// The row of a test, with what is gathered of it.
fn write_test(
    sheet: &Sheet<'_>,
    filter: &FilterText<'_>,
    bundle: u8,
    test: RawTest,
    rows: &mut [u32],
    row: usize,
) -> Written
    requires placed { Placed filter.now test }
    requires read { Read filter.now test }
    requires row_in_bounds { row < length rows.old }
    ensures { WroteTest (parameters_of sheet.now) bundle filter.now row test result rows.old rows.new }
{
    rows[row] = 8 * test_number(sheet, bundle, filter, test);
    let asked = FilterTest {
        text: filter,
        raw: test,
    };
    let summary = test_summary(sheet, bundle, &asked, test.at);
    Written {
        end: test.value.next,
        outcome: Outcome { summary, cells: 1 },
    }
}

// The row of not, behind the rows of a filter that was read up to its bracket.
fn write_not(end: usize, inner: Outcome, rows: &mut [u32], row: usize) -> Written
    requires { row + inner.cells < length rows.old }
    ensures { WroteNot end inner row result rows.old rows.new }
{
    rows[row + inner.cells] = 2;
    Written {
        end,
        outcome: Outcome {
            summary: inner.summary,
            cells: inner.cells + 1,
        },
    }
}

// The end of round brackets behind the filter in them, which was read and has its rows written from a row on.
fn close_round(
    filter: &FilterText<'_>,
    negate: bool,
    inner: Written,
    rows: &mut [u32],
    row: usize,
) -> Option<Written>
    requires end_in_bounds { inner.end ≤ length filter.now }
    requires cells_in_bounds { row + inner.outcome.cells < length rows.old }
    ensures { WroteClosed filter.now inner.end negate inner.outcome row result rows.old rows.new }
{
    let end = filter.read_close(b')', inner.end)?;
    if negate {
        return Some(write_not(end, inner.outcome, rows, row));
    }
    Some(Written { end, ..inner })
}

// The filter in round brackets at a spot inside them, after not where `negate` says so. Its cells are written from a row on.
#[cycle(writing)]
fn write_round(
    sheet: &Sheet<'_>,
    filter: &FilterText<'_>,
    spot: Spot,
    negate: bool,
    rows: &mut [u32],
    row: usize,
) -> Option<Written>
    requires room { Room filter.now rows.old row spot.at }
    requires row_lt_at { row < spot.at }
    ensures { WroteRound sheet.now filter.now spot negate row result rows.old rows.new }
{
    let inside = Spot {
        close: b')',
        ..spot
    };
    let inner = write_filter(sheet, filter, inside, rows, row)?;
    close_round(filter, negate, inner, rows, row)
}

// The cell of brackets with so many rows in them.
fn bracket_cell(size: usize) -> u32
    requires { size ≤ 1024 }
    ensures { result ≡ cell_of (Row.Bracket size) }
{
    let rows = size as u32;
    8 * rows + 1
}

// The spot in the square brackets of the bundle whose name begins at a spot and ends at `until`.
fn inside_of(sheet: &Sheet<'_>, filter: &FilterText<'_>, spot: Spot, until: usize) -> Spot
    requires at_le_until { spot.at ≤ until }
    requires until_in_bounds { until < length filter.now }
    ensures { Inside (parameters_of sheet.now) filter.now spot until result }
{
    let at = spot.at;
    let bundle = sheet.enter(spot.bundle, filter.part(at, until));
    Spot {
        at: filter.skip_after(until),
        levels: spot.levels,
        close: b']',
        bundle,
    }
}

// The rows of brackets and of the test of a member behind them, before the rows in the brackets, which are written; `at` is where the
// bundle's name begins.
fn write_pair(
    sheet: &Sheet<'_>,
    filter: &FilterText<'_>,
    bundle: u8,
    at: usize,
    test: RawTest,
    inner: Outcome,
    rows: &mut [u32],
    row: usize,
) -> Written
    requires placed { Placed filter.now test }
    requires read { Read filter.now test }
    requires cells_in_bounds { row + inner.cells + 1 < length rows.old }
    requires cells_bound { inner.cells ≤ 1024 }
    requires tests_bound { inner.summary.tests < 1024 }
    ensures { WrotePair (parameters_of sheet.now) bundle filter.now at test inner row result rows.old rows.new }
{
    let cells = inner.cells;
    rows[row] = bracket_cell(cells);
    rows[row + 1] = 8 * test_number(sheet, bundle, filter, test);
    let asked = FilterTest {
        text: filter,
        raw: test,
    };
    let outer = test_summary(sheet, bundle, &asked, at);
    let summary = join_summaries(outer, inner.summary);
    Written {
        end: test.value.next,
        outcome: Outcome {
            summary,
            cells: cells + 2,
        },
    }
}

// The test of a member behind the filter in its bundle's brackets, which was read and has its rows written; the bundle's name begins at a
// spot.
fn write_member(
    sheet: &Sheet<'_>,
    filter: &FilterText<'_>,
    spot: Spot,
    bundle: u8,
    inner: Written,
    rows: &mut [u32],
    row: usize,
) -> Option<Written>
    requires end_in_bounds { inner.end ≤ length filter.now }
    requires cells_in_bounds { row + inner.outcome.cells + 1 < length rows.old }
    requires cells_bound { inner.outcome.cells ≤ 1024 }
    requires tests_bound { inner.outcome.summary.tests < 1024 }
    ensures { WroteMember (parameters_of sheet.now) bundle filter.now spot inner.end inner.outcome row result rows.old rows.new }
{
    let test = filter.read_member(spot.close, inner.end)?;
    let at = spot.at;
    Some(write_pair(sheet, filter, bundle, at, test, inner.outcome, rows, row))
}

// The test of a member at a spot, after the filter in square brackets of the bundle whose name ends at `until`; the levels are those in
// the brackets. The cells of both are written from a row on: those of the brackets and of the test are filled in afterwards.
#[cycle(writing)]
fn write_chosen(
    sheet: &Sheet<'_>,
    filter: &FilterText<'_>,
    spot: Spot,
    until: usize,
    rows: &mut [u32],
    row: usize,
) -> Option<Written>
    requires room { Room filter.now rows.old row spot.at }
    requires at_lt_until { spot.at < until }
    requires until_in_bounds { until < length filter.now }
    ensures { WroteChosen sheet.now filter.now spot until row result rows.old rows.new }
{
    let inside = inside_of(sheet, filter, spot, until);
    let inner = write_filter(sheet, filter, inside, rows, row + 2)?;
    write_member(sheet, filter, spot, inside.bundle, inner, rows, row)
}

// The item at a spot: "a test, a filter in round brackets, or not followed by a filter in round brackets", or the test of a member
// after its bundle's brackets. Its cells are written from a row on.
#[cycle(writing)]
fn write_item(
    sheet: &Sheet<'_>,
    filter: &FilterText<'_>,
    spot: Spot,
    rows: &mut [u32],
    row: usize,
) -> Option<Written>
    requires room { Room filter.now rows.old row spot.at }
    ensures { WroteItem sheet.now filter.now spot row result rows.old rows.new }
{
    let levels = spot.levels;
    let head = filter.read_head(spot.close, spot.at)?;
    match head {
        Head::Test(test) => Some(write_test(sheet, filter, spot.bundle, test, rows, row)),
        Head::Open(next, negate) => {
            if levels == 0 {
                return None;
            }
            let inside = Spot {
                at: next,
                levels: levels - 1,
                ..spot
            };
            write_round(sheet, filter, inside, negate, rows, row)
        }
        Head::Choice(until) => {
            if levels == 0 {
                return None;
            }
            let member = Spot {
                levels: levels - 1,
                ..spot
            };
            write_chosen(sheet, filter, member, until, rows, row)
        }
    }
}

// The cell of a connective whose second part has so many rows.
fn connect_cell(connective: Connective, size: usize) -> u32
    requires { size ≤ 1024 }
    ensures { result ≡ cell_of (Row.Connect connective size) }
{
    let rows = size as u32;
    match connective {
        Connective::And => 8 * rows + 3,
        Connective::Or => 8 * rows + 4,
    }
}

// The row of a connective between the rows of its parts, of which the first begin at a row, and what both parts gather.
fn write_join(
    connective: Connective,
    first: Outcome,
    second: Outcome,
    rows: &mut [u32],
    row: usize,
) -> Outcome
    requires { Joinable rows.old row first second }
    ensures { WroteJoin connective first second row result rows.old rows.new }
{
    let place = row + first.cells;
    let cells = second.cells;
    rows[place] = connect_cell(connective, cells);
    Outcome {
        summary: join_summaries(first.summary, second.summary),
        cells: first.cells + cells + 1,
    }
}

// The items that follow the one in hand, which begins at a spot and has its cells from a row on. A connective's cell is
// filled in behind its item.
#[cycle(writing)]
fn write_rest(
    sheet: &Sheet<'_>,
    filter: &FilterText<'_>,
    spot: Spot,
    rows: &mut [u32],
    row: usize,
    first: Written,
) -> Option<Written>
    requires chained_at { ChainedAt sheet.now filter.now spot row rows.old first.end first.outcome rows.old }
    ensures { WroteFilter sheet.now filter.now spot row result rows.old rows.new }
{
    let mut read = first;
    // no for: where the next item begins is known when the one before it was read
    while let Some(link) = filter.read_connective(read.end) {
        let next = Spot {
            at: link.next,
            ..spot
        };
        let item = write_item(sheet, filter, next, rows, row + read.outcome.cells + 1)?;
        read = Written {
            end: item.end,
            outcome: write_join(link.connective, read.outcome, item.outcome, rows, row),
        };
    }
    Some(read)
}

// The filter at a spot: "one or more items joined by and or or", from left to right. Its cells are written from a row on.
#[cycle(writing)]
pub fn write_filter(
    sheet: &Sheet<'_>,
    filter: &FilterText<'_>,
    spot: Spot,
    rows: &mut [u32],
    row: usize,
) -> Option<Written>
    requires room { Room filter.now rows.old row spot.at }
    ensures { WroteFilter sheet.now filter.now spot row result rows.old rows.new }
{
    let first = write_item(sheet, filter, spot, rows, row)?;
    write_rest(sheet, filter, spot, rows, row, first)
}
